// The ids of runs.
ghost use Rattle.std.specs.Prelude.{◌≡◌, ℕ, ◌^◌, ◌<◌, Some, IfSome};
ghost use Rattle.step_ids.specs.Run.{run_text, run_value, run_of_halves, run_of_text, uuid_value, IsRun, AreDistinct};
ghost use Rattle.std.specs.Int.{w128, to_be_bytes};

use uuid::Uuid;

/// Version 7, in the four bits behind the moment.
const VERSION: u64 = 7 << 12;
/// Variant 10, in the two bits before the number.
const VARIANT: u64 = 2;

const NUMBER_BITS: u32 = 62;

/// The id of a run: a UUID in its hyphenated lower-case text, with the fields of version 7 (RFC 9562, section 5.7).
/// `moment` is in milliseconds since 1970.
pub fn run_id(moment: u64, number: u64) -> [u8; 36]
    requires moment { moment < 2 ^ 48 }
    requires number { number < 2 ^ 62 }
    ensures id { result ≡ run_text moment number }
    ensures read_back { run_of_text result ≡ Some (moment, number) }
{
    let mut buffer = Uuid::encode_buffer();
    let text = uuid_of(moment, number)
        .hyphenated()
        .encode_lower(&mut buffer);
    let mut id = [0; 36];
    id.copy_from_slice(text.as_bytes());
    id
}

fn uuid_of(moment: u64, number: u64) -> Uuid
    requires moment { moment < 2 ^ 48 }
    requires number { number < 2 ^ 62 }
    ensures { result ≡ to_be_bytes w128 (run_value moment number) }
{
    Uuid::from_u64_pair((moment << 16) + VERSION, (VARIANT << NUMBER_BITS) + number)
}

/// The moment and number of the run that a text names: of each text that reads as a UUID (with or without hyphens, in
/// either case, in braces or behind `urn:uuid:`) and has the layout of `run_id`, and `None` for any other text.
pub fn run_number(text: &[u8]) -> Option<(u64, u64)>
    ensures value { result ≡ run_of_text text.now }
    // the UUID of the text is then the run's own ..
    ensures own { IfSome result
        (λ run. IsRun run.0 run.1 × (uuid_value text.now ≡ Some (run_value run.0 run.1))) }
    // .. and each text of a run's own UUID names that run
    ensures found { (moment number : ℕ) → IsRun moment number →
        uuid_value text.now ≡ Some (run_value moment number) → result ≡ Some (moment, number) }
{
    match Uuid::try_parse_ascii(text) {
        Ok(id) => {
            let (high, low) = id.as_u64_pair();
            run_of(high, low)
        }
        Err(_) => None,
    }
}

fn run_of(high: u64, low: u64) -> Option<(u64, u64)>
    ensures value { result ≡ run_of_halves high low }
    ensures moment { IfSome result (λ run. run.0 < 2 ^ 48) }
{
    if high % (1 << 16) == VERSION && low >> NUMBER_BITS == VARIANT {
        Some((high >> 16, low % (1 << NUMBER_BITS)))
    } else {
        None
    }
}

/// A law for callers: no two runs share an id.
pub fn distinct_runs()
    ensures { AreDistinct }
{}
