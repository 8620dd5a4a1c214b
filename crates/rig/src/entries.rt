// What a rig records of the network.
use lists::Bytes;

/// What came of one look at the network.
#[derive(Drop)]
pub enum HeardEntry {
    /// A peer connected, and has this number.
    Accepted { conn: u64 },
    /// Bytes came, at least one.
    Data { conn: u64, bytes: Bytes },
    /// The peer has closed its side.
    Ended { conn: u64 },
    /// The connection failed.
    Broke { conn: u64 },
    /// There was nothing to hear.
    Nothing,
}

/// What went out to the network.
#[derive(Drop)]
pub enum SaidEntry {
    /// A dial that succeeded: the connection has this number.
    Dialled { conn: u64, host: Bytes, port: u16 },
    /// Bytes on a connection. Of a failed call they are those that went out all the same.
    Sent { conn: u64, bytes: Bytes },
    /// The first hang of a connection.
    Hung { conn: u64 },
}

/// What the rig was asked for, whether it could or not.
#[derive(Drop)]
pub enum AskedEntry {
    /// To take the two files of a directory.
    Attach { dir: Bytes },
    /// To listen on a port.
    Listen { port: u16 },
    /// To connect to a port of a host.
    Dial { host: Bytes, port: u16 },
    /// To say bytes on a connection.
    Say { conn: u64, bytes: Bytes },
}
