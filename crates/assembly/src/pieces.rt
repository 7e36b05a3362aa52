// Bytes laid into the table; past its end nothing is laid.
ghost use Rattle.std.specs.Prelude.{◌≡◌, [], ◌∷◌, ◌-◌, ◌/◌, ◌≤◌, set};
ghost use Rattle.wire.specs.Wire.{bytes4};
ghost use Rattle.assembly.specs.Advances.{Near};
ghost use Rattle.assembly.specs.Pieces.{lay, lay_all, piece};
ghost use Rattle.assembly.specs.Moves.{removed_from};

use crate::slots::Slot;
use records::geometry::HeadBytes;

#[tactic(auto, using(crate::proofs::Laying::laid))]
pub fn put(table: &mut [u8], p: usize, b: u8)
    ensures { table.new ≡ set table.old p b }
{
    if p < table.len() {
        table[p] = b;
    }
}

#[tactic(auto, using(crate::proofs::Laying::laid))]
pub fn put_pair(table: &mut [u8], p: usize, a: u8, b: u8)
    requires { p ≤ 8589934592 }
    ensures { table.new ≡ lay_all (piece p (a ∷ b ∷ []) ∷ []) table.old }
{
    put(table, p, a);
    put(table, p + 1, b);
}

#[tactic(auto, using(crate::proofs::Laying::laid))]
pub fn put_slot(table: &mut [u8], p: usize, slot: Slot)
    requires { p ≤ 8589934592 }
    ensures { table.new ≡ lay p (slot.tag ∷ bytes4 slot.value) table.old }
{
    let value = slot.value;
    put(table, p, slot.tag);
    put(table, p + 1, (value % 256) as u8);
    put(table, p + 2, (value / 256 % 256) as u8);
    put(table, p + 3, (value / 65536 % 256) as u8);
    put(table, p + 4, (value / 16777216 % 256) as u8);
}

// How many heads stand from `start` to `end`.
fn heads_between(start: usize, end: usize) -> usize
    ensures { result ≡ (end - start) / 22 }
{
    if end < start {
        return 0;
    }
    (end - start) / HeadBytes::LEN
}

// The kinds of the heads from `start` to `end` become 4, removed.
pub fn put_removed(table: &mut [u8], start: usize, end: usize)
    requires { (start ≤ 8589934592) × (end ≤ 8589934592) }
    ensures { table.new ≡ lay_all (removed_from start ((end - start) / 22)) table.old }
{
    let mut p = start;
    let mut left = heads_between(start, end);
    while 0 < left {
        left -= 1;
        put(table, p, 4);
        p += HeadBytes::LEN;
    }
}
