// Heads, comparisons and body items, parted by commas: x { "," x }.
ghost use Rattle.std.specs.Prelude.{◌≡◌, ℕ, suc, List, [], ◌∷◌, ◌+◌, ◌*◌, ◌≤◌};
ghost use Rattle.text_writing.specs.Written.{longest_text, Put};
ghost use Rattle.text_writing.specs.Parts.{list_text};

use text_writing::Page;

// A kind of part that stands in lists, where it lies in a table's bytes.
pub trait Part {
    // the text of the one at p in the bytes t, and how long that is at most
    ghost text: { List ℕ → ℕ → List ℕ };

    ghost most: { ℕ };

    // where the next one lies
    ghost behind: { List ℕ → ℕ → ℕ };

    // n of them lie in t, one behind the other from p on, and their texts
    ghost Lie: { List ℕ → ℕ → ℕ → Type 0 };

    ghost texts: { List ℕ → ℕ → ℕ → List (List ℕ) };

    // Writes the one at p, and returns the place behind it.
    fn put(table: &[u8], p: usize, page: &mut Page) -> usize
        requires lies { Lie table.now p 1 }
        requires room { page.old.at + most ≤ longest_text }
        ensures written { Put page.old (text table.now p) most page.new }
        ensures next { result ≡ behind table.now p };

    ghost first_lies: { (t : List ℕ) (p n : ℕ) → Lie t p (suc n) → Lie t p 1 × Lie t (behind t p) n };

    ghost none: { (t : List ℕ) (p : ℕ) → texts t p 0 ≡ [] };

    ghost first: { (t : List ℕ) (p n : ℕ) → texts t p (suc n) ≡ text t p ∷ texts t (behind t p) n };
}

// Those from a place on.
pub fn put_list<P: Part>(table: &[u8], from: usize, parts: u8, page: &mut Page)
    requires lie { P.Lie table.now from parts }
    requires room { page.old.at + (2 + P.most) * parts ≤ longest_text }
    ensures { Put page.old (list_text (P.texts table.now from parts)) ((2 + P.most) * parts) page.new }
{
    let mut p = from;
    for i in 0..parts {
        if 0 < i {
            page.put_bytes(b", ");
        }
        p = P::put(table, p, page);
    }
}
