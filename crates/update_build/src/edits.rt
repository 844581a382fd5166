//! Words that are to be written, once all are read.

ghost use Rattle.std.specs.Prelude.{◌≡◌, length};
ghost use Rattle.update_build.specs.Contracting.{AreInside, applied};

/// A word that is to be written at a place.
#[derive(Clone, Copy)]
pub struct Edit {
    pub place: usize,
    pub word: u64,
}

/// Makes edits, one after another.
pub fn apply(words: &mut Vec<u64>, edits: &[Edit])
    requires { AreInside (length words.old.items) edits.now }
    ensures { words.new.items ≡ applied words.old.items edits.now }
{
    for i in 0..edits.len() {
        let edit = edits[i];
        words[edit.place] = edit.word;
    }
}
