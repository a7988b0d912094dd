// The forms by their numbers (02, ticket 3: "a form number, 1 or 2", and ticket 11: "Add form 3").
ghost use Rattle.std.specs.Prelude.{◌≡◌, ◌/◌};
ghost use Rattle.stored_forms.specs.Tree.{is_form, form_of, form_rule, tree_range, cells_per_unit};

use ledger::Rule;

// Whether a form has this number.
pub fn is_form(form: u32) -> bool
    ensures { result ≡ is_form form }
{
    (form == 1) | (form == 2) | (form == 3)
}

// Whether an arena of the form may have so many words.
pub fn is_range(form: u32, words: usize) -> bool
    ensures { result ≡ tree_range (form_of form) words }
{
    if form == 2 {
        return (4 <= words) & (words <= 1048576) & (words % 4 == 0);
    }
    if form == 3 {
        return (8 <= words) & (words <= 16384) & (words % 8 == 0);
    }
    (2 <= words) & (words <= 16384) & (words % 2 == 0)
}

// How many cells so many words have.
pub fn cell_count(form: u32, words: usize) -> usize
    ensures { result ≡ words / (form_of form).cell }
{
    if form == 2 {
        return words / 4;
    }
    words / 2
}

// The form's rounding rule.
pub fn rule_of(form: u32) -> Rule
    ensures { result ≡ form_rule (form_of form) }
{
    if form == 2 {
        return Rule { unit: 4, lead: 0 };
    }
    if form == 3 {
        return Rule { unit: 8, lead: 0 };
    }
    Rule { unit: 2, lead: 0 }
}

// How many cells the ledger's unit has.
pub fn cells_per_unit(form: u32) -> usize
    ensures { result ≡ cells_per_unit (form_of form) }
{
    if form == 3 {
        return 4;
    }
    1
}
