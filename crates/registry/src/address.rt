// Where the calls of a function go.
use lists::Bytes;

/// Where the calls of a function go.
#[derive(Drop)]
pub(crate) struct Address {
    pub host: Bytes,
    pub port: u16,
    /// With its `/` in front.
    pub path: Bytes,
    /// Without `?`, and empty where there is none.
    pub query: Bytes,
}
