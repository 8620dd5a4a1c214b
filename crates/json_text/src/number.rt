// The parts of a number, byte by byte.
ghost use Rattle.std.specs.Prelude.{◌≡◌, cond};
ghost use Rattle.json_text.specs.Bytes.{is_digit, is_exponent_mark, is_sign};
ghost use Rattle.json_text.specs.Automaton.{next_stage, may_end, from_minus, from_whole};
ghost use Rattle.json_text.specs.declared.number.Stage.TheVariants as stage;

/// How far a number has come.
#[derive(Clone, Copy, Debug, PartialEq, Eq)]
pub(crate) enum Stage {
    Start,
    Minus,
    Zero,
    Whole,
    Point,
    Fraction,
    Mark,
    Sign,
    Exponent,
}

impl Stage {
    pub(crate) fn next(self, byte: u8) -> Option<Self>
        ensures { result ≡ next_stage self byte }
    {
        match self {
            Stage::Start => if byte == b'-' {
                Some(Stage::Minus)
            } else {
                from_minus(byte)
            },
            Stage::Minus => from_minus(byte),
            Stage::Zero => from_whole(byte),
            Stage::Whole => digit_or(byte, Stage::Whole, from_whole(byte)),
            Stage::Point => digit_or(byte, Stage::Fraction, None),
            Stage::Fraction => digit_or(byte, Stage::Fraction, mark(byte)),
            Stage::Mark => if is_sign(byte) {
                Some(Stage::Sign)
            } else {
                digit_or(byte, Stage::Exponent, None)
            },
            Stage::Sign | Stage::Exponent => digit_or(byte, Stage::Exponent, None),
        }
    }

    pub(crate) fn may_end(self) -> bool
        ensures { result ≡ may_end self }
    {
        matches!(
            self,
            Stage::Zero | Stage::Whole | Stage::Fraction | Stage::Exponent
        )
    }
}

fn from_minus(byte: u8) -> Option<Stage>
    ensures { result ≡ from_minus byte }
{
    match byte {
        b'0' => Some(Stage::Zero),
        b'1'..=b'9' => Some(Stage::Whole),
        _ => None,
    }
}

fn from_whole(byte: u8) -> Option<Stage>
    ensures { result ≡ from_whole byte }
{
    if byte == b'.' {
        Some(Stage::Point)
    } else {
        mark(byte)
    }
}

fn mark(byte: u8) -> Option<Stage>
    ensures { result ≡ cond (is_exponent_mark byte) (Some stage.Mark) None }
{
    if byte == b'e' || byte == b'E' {
        Some(Stage::Mark)
    } else {
        None
    }
}

fn is_sign(byte: u8) -> bool
    ensures { result ≡ is_sign byte }
{
    byte == b'+' || byte == b'-'
}

fn digit_or(byte: u8, stage: Stage, otherwise: Option<Stage>) -> Option<Stage>
    ensures { result ≡ cond (is_digit byte) (Some stage) otherwise }
{
    if b'0' <= byte && byte <= b'9' {
        Some(stage)
    } else {
        otherwise
    }
}
