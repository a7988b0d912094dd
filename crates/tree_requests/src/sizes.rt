// Sizes by the form (02, tickets 3 and 11). The ledger counts units, and the free tree cells.
ghost use Rattle.std.specs.Prelude.{◌≡◌, ◌*◌, ◌<◌};
ghost use Rattle.stored_forms.specs.Tree.{form_of};
ghost use Rattle.tree_requests.specs.Sizes.{cell_span};

// The most words that can be asked for.
pub fn limit_of(form: u32) -> u32
    ensures { result ≡ (form_of form).limit }
{
    if form == 2 {
        return 1048576;
    }
    16384
}

// How many cells a request for so many words takes: its units times the cells of each, with the form's numbers, so that
// none is looked up and nothing is divided by a variable.
pub fn cells_of(form: u32, words: u32) -> usize
    ensures { result ≡ cell_span (form_of form) words }
{
    let n = words as usize;
    if form == 2 {
        return (n + 3) / 4;
    }
    if form == 3 {
        return (n + 7) / 8 * 4;
    }
    (n + 1) / 2
}

// The first word of cell `c`.
pub fn first_word(form: u32, c: usize) -> usize
    requires { c < 4294967296 }
    ensures { result ≡ (form_of form).cell * c }
{
    if form == 2 {
        return 4 * c;
    }
    2 * c
}
