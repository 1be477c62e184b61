// Words beside one another, as many as there are triples at most: a list in fixed memory.
ghost use Rattle.std.specs.Prelude.{◌≡◌, [], ◌∷◌, ◌++◌, ◌≤◌, ◌<◌, length};
ghost use Rattle.relations.specs.Limits.{triple_limit};

use relations::limits::TRIPLES;
use std::marker::Model;

#[derive(Clone, Copy)]
pub struct Words {
    words: [u32; TRIPLES],
    count: usize,
}

// The words behind those of the list are 0, so that the list gives the fields back, as `Copy` asks.
impl Model for Words {
    ghost use Rattle.std.specs.Prelude.{◌≡◌, List, ◌++◌, ℕ, ◌-◌, ◌≤◌, length, take, drop, replicate};
    ghost use Rattle.std.proofs.Common.{arith, sym, ap, ◌∙◌};
    ghost use Rattle.std.proofs.lemmas.List.{take-append-drop, length-take-le};
    ghost use Rattle.relations.specs.Limits.{triple_limit};

    ghost Value = { List ℕ };

    ghost view = { λ s. take s.count s.words };

    ghost invariant = { λ s. (s.count ≤ triple_limit) × (length s.words ≡ triple_limit) × (drop s.count s.words ≡ replicate (triple_limit - s.count) 0) };

    ghost inverse = { λ list. record { words = list ++ replicate (triple_limit - length list) 0; count = length list } };

    ghost inverse_ok = { λ s h i.
        let counted = length-take-le s.count s.words (omega (arith, h.0, h.1)) in
        record {
          words = (ap (λ (n : ℕ). take s.count s.words ++ replicate (triple_limit - n) 0) counted ∙ ap (λ (rest : List ℕ). take s.count s.words ++ rest) (sym h.2) ∙ take-append-drop s.count s.words) i;
          count = counted i;
        } };
}

impl Words {
    pub fn new() -> Words
        ensures { result ≡ [] }
    {
        Words {
            words: [0; TRIPLES],
            count: 0,
        }
    }

    pub fn push(&mut self, word: u32)
        requires { length self.old < triple_limit }
        ensures { self.new ≡ self.old ++ word ∷ [] }
    {
        self.words[self.count] = word;
        self.count += 1;
    }

    pub fn as_slice(&self) -> &[u32]
        ensures words { result.now ≡ self.now }
        ensures few { length result.now ≤ triple_limit }
    {
        &self.words[..self.count]
    }
}
