// A node's list, grown word by word.
ghost use Rattle.std.specs.Prelude.{◌≡◌, [], ◌∷◌, ◌+◌, ◌≤◌, ◌<◌, length};
ghost use Rattle.relations.specs.Limits.{column_limit, list_words};
ghost use Rattle.calculus.specs.Scope.{columns_from};
ghost use Rattle.emission.specs.NodeLists.{node_list, grown_by, numbers_of};

use relations::limits::LIST_WORDS;

// A node's list: the words used so far, then zeros.
#[derive(Clone, Copy)]
pub struct NodeList {
    pub words: [u32; LIST_WORDS],
    pub used: u32,
}

impl NodeList {
    pub fn new() -> NodeList
        ensures { result ≡ node_list [] }
    {
        NodeList {
            words: [0; LIST_WORDS],
            used: 0,
        }
    }

    pub fn push(&mut self, word: u32)
        requires { self.old.used < list_words }
        ensures { self.new ≡ grown_by self.old (word ∷ []) }
    {
        self.words[self.used as usize] = word;
        self.used += 1;
    }

    pub fn extend(&mut self, words: &[u32])
        requires { self.old.used + length words.now ≤ list_words }
        ensures { self.new ≡ grown_by self.old words.now }
    {
        for word in words {
            self.push(*word);
        }
    }

    // So many columns in order, from `first` on, behind those of the list.
    pub fn extend_columns(&mut self, first: u32, count: u32)
        requires { (self.old.used + count ≤ list_words) × (first ≤ column_limit + column_limit) }
        ensures { self.new ≡ grown_by self.old (numbers_of (columns_from count first)) }
    {
        for column in first..first + count {
            self.push(column);
        }
    }
}
