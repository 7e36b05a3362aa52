// Exact whole numbers of 32 bits: the operations of expressions and the comparators of guards.
// No public function here has a `requires`: each takes every input, and its contract gives the one result that the definition gives.
// What an expression comes to is an `Option<i32>`, and what a comparison comes to is an `Option<bool>`: `None` is undefined.
#![tactic(auto)]

ghost use Rattle.std.specs.Prelude.{◌≡◌, cond, ◌≢◌, pos, negsuc, neg_ℤ, ◌-ℤ◌};
ghost use Rattle.std.specs.Int.Signed.{lt_z};
ghost use Rattle.numbers.specs.Numbers as Numbers;

// x where it lies in the range. Every operation is worked out in 64 bits, where none can wrap, and comes by here.
#[tactic(auto, using(crate::proofs::Machine::converted))]
fn narrow(x: i64) -> Option<i32>
    ensures { result ≡ Numbers.exact x }
{
    i32::try_from(x).ok()
}

pub fn sum(a: i32, b: i32) -> Option<i32>
    ensures { result ≡ Numbers.sum_of a b }
{
    narrow(i64::from(a) + i64::from(b))
}

pub fn difference(a: i32, b: i32) -> Option<i32>
    ensures { result ≡ Numbers.difference_of a b }
{
    narrow(i64::from(a) - i64::from(b))
}

pub fn product(a: i32, b: i32) -> Option<i32>
    ensures { result ≡ Numbers.product_of a b }
{
    narrow(i64::from(a) * i64::from(b))
}

// x, with its sign turned where the divisor b is below 0.
fn turned(x: i32, b: i32) -> i64
    ensures { result ≡ cond (lt_z b (pos 0)) (neg_ℤ x) x }
{
    if b < 0 { -i64::from(x) } else { i64::from(x) }
}

// x, or if it is asked for the number across from it: -1 for 0, -2 for 1, and back.
fn mirrored(x: i64, across: bool) -> i64
    ensures { result ≡ cond across (negsuc 0 -ℤ x) x }
{
    if across { -1 - x } else { x }
}

// a by b, rounded down. What is divided is never below 0, where to cut is to round down: the signs are turned so that the divisor is above 0,
// and a dividend that is then below 0 is mirrored, and so is its quotient.
fn floor(a: i32, b: i32) -> i64
    requires { b ≢ pos 0 }
    ensures { result ≡ Numbers.floor_z a b }
{
    let up = turned(a, b);
    let below = up < 0;
    let dividend = mirrored(up, below) as u32;
    let divisor = b.unsigned_abs();
    let quotient = (dividend / divisor) as i64;
    mirrored(quotient, below)
}

// The greatest whole number not above the exact one.
#[tactic(auto, unfolding(crate::specs::Numbers::quotient_of, crate::specs::Numbers::unless_zero))]
pub fn quotient(a: i32, b: i32) -> Option<i32>
    ensures { result ≡ Numbers.quotient_of a b }
{
    if b == 0 {
        return None;
    }
    narrow(floor(a, b))
}

// What the quotient leaves of a: 0, or of the divisor's sign.
#[tactic(auto, unfolding(crate::specs::Numbers::remainder_of, crate::specs::Numbers::unless_zero))]
pub fn remainder(a: i32, b: i32) -> Option<i32>
    ensures { result ≡ Numbers.remainder_of a b }
{
    if b == 0 {
        return None;
    }
    let product = i64::from(b) * floor(a, b);
    narrow(i64::from(a) - product)
}

// The operation of that number on two numbers.
// Kept: `op` and `cmp` are numbers, since `operate` and `holds` answer to every number, also one that no enum has.
#[tactic(auto, unfolding(crate::specs::Numbers::operate))]
pub fn operate(op: u8, a: i32, b: i32) -> Option<i32>
    ensures { result ≡ Numbers.operate op a b }
{
    match op {
        0 => Some(a),
        1 => sum(a, b),
        2 => difference(a, b),
        3 => product(a, b),
        4 => quotient(a, b),
        5 => remainder(a, b),
        _ => None,
    }
}

// The operation of that number on what its two slots hold.
#[tactic(auto, unfolding(crate::specs::Numbers::evaluate, crate::specs::Numbers::on_numbers))]
pub fn evaluate(op: u8, left: Option<i32>, right: Option<i32>) -> Option<i32>
    ensures { result ≡ Numbers.evaluate op left right }
{
    if op == 0 {
        return left;
    }
    operate(op, left?, right?)
}

// Whether the comparator of that number holds of two numbers.
#[tactic(auto, unfolding(crate::specs::Numbers::holds))]
pub fn holds(cmp: u8, a: i32, b: i32) -> bool
    ensures { result ≡ Numbers.holds cmp a b }
{
    match cmp {
        0 => a == b,
        1 => a != b,
        2 => a < b,
        3 => a <= b,
        4 => a > b,
        5 => a >= b,
        _ => false,
    }
}

// The same, where a number that is no comparator gives no answer.
#[tactic(auto, unfolding(crate::specs::Numbers::judge))]
fn judge(cmp: u8, a: i32, b: i32) -> Option<bool>
    ensures { result ≡ Numbers.judge cmp a b }
{
    if cmp <= 5 {
        Some(holds(cmp, a, b))
    } else {
        None
    }
}

// The comparator of that number on what two expressions came to.
#[tactic(auto, unfolding(crate::specs::Numbers::compare))]
pub fn compare(cmp: u8, left: Option<i32>, right: Option<i32>) -> Option<bool>
    ensures { result ≡ Numbers.compare cmp left right }
{
    judge(cmp, left?, right?)
}
