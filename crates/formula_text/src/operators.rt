// The operators in texts: how each is written, and how it binds.
ghost use Rattle.std.specs.Prelude.{◌≡◌, ◌∷◌, []};
ghost use Rattle.formula_text.specs.Operators.{operator_of, row};

use sig_formula::BinOp;

/// Operators that bind alike, from the loosest on.
#[derive(Clone, Copy)]
pub enum Group {
    Or,
    And,
    Compare,
    Join,
    Add,
    Multiply,
}

// How each operator is written, at the place of its number, and the group that it is of.
const OPERATORS: [(BinOp, &[u8], Group); 14] = [
    (BinOp::Or, b"or", Group::Or),
    (BinOp::And, b"and", Group::And),
    (BinOp::Eq, b"==", Group::Compare),
    (BinOp::Ne, b"!=", Group::Compare),
    (BinOp::Lt, b"<", Group::Compare),
    (BinOp::Le, b"<=", Group::Compare),
    (BinOp::Gt, b">", Group::Compare),
    (BinOp::Ge, b">=", Group::Compare),
    (BinOp::Join, b"++", Group::Join),
    (BinOp::Add, b"+", Group::Add),
    (BinOp::Sub, b"-", Group::Add),
    (BinOp::Mul, b"*", Group::Multiply),
    (BinOp::Div, b"/", Group::Multiply),
    (BinOp::Rem, b"%", Group::Multiply),
];

/// How an operator is written.
pub fn operator_bytes(operator: BinOp) -> &'static [u8]
    ensures { result.now ≡ (row operator).text }
{
    OPERATORS[operator as usize].1
}

/// The operators that bind as it does.
pub fn group_of(operator: BinOp) -> Group
    ensures { result ≡ (row operator).group }
{
    OPERATORS[operator as usize].2
}

// The operator that this byte writes.
fn of_one(b: u8) -> Option<BinOp>
    ensures { result ≡ operator_of (b ∷ []) }
{
    match b {
        b'<' => Some(BinOp::Lt),
        b'>' => Some(BinOp::Gt),
        b'+' => Some(BinOp::Add),
        b'-' => Some(BinOp::Sub),
        b'*' => Some(BinOp::Mul),
        b'/' => Some(BinOp::Div),
        b'%' => Some(BinOp::Rem),
        _ => None,
    }
}

// The operator that these two bytes write.
fn of_two(b: u8, c: u8) -> Option<BinOp>
    ensures { result ≡ operator_of (b ∷ c ∷ []) }
{
    match (b, c) {
        (b'o', b'r') => Some(BinOp::Or),
        (b'=', b'=') => Some(BinOp::Eq),
        (b'!', b'=') => Some(BinOp::Ne),
        (b'<', b'=') => Some(BinOp::Le),
        (b'>', b'=') => Some(BinOp::Ge),
        (b'+', b'+') => Some(BinOp::Join),
        _ => None,
    }
}

// The operator that these three bytes write.
fn of_three(b: u8, c: u8, d: u8) -> Option<BinOp>
    ensures { result ≡ operator_of (b ∷ c ∷ d ∷ []) }
{
    match (b, c, d) {
        (b'a', b'n', b'd') => Some(BinOp::And),
        _ => None,
    }
}

/// The operator that is written so.
#[tactic(auto, using(sig_base::proofs::Lengths::unlike))]
pub fn operator_of(text: &[u8]) -> Option<BinOp>
    ensures { result ≡ operator_of text.now }
{
    match text {
        [b] => of_one(*b),
        [b, c] => of_two(*b, *c),
        [b, c, d] => of_three(*b, *c, *d),
        _ => None,
    }
}
