//! Forms in texts.
ghost use Rattle.std.specs.Prelude.{◌≡◌, ◌++◌, IfOk, OnOk, string_bytes};
ghost use Rattle.report.specs.Forms.{form_word, forms_text};

use lpcc_case::Form;
use std::alloc::{AllocError, Global};

/// The form: `x` and the number of a column, `c` and that of a constraint, both from 1, or `cost`.
pub fn form_text(alloc: Global, form: Form) -> Result<String, AllocError>
    ensures { IfOk result (λ text. string_bytes text ≡ form_word form) }
{
    match form {
        Form::Col(column) => format!(in alloc; "x{}", u64::from(column) + 1),
        Form::Con(constraint) => format!(in alloc; "c{}", u64::from(constraint) + 1),
        Form::Cost => String::from_str(alloc, "cost"),
    }
}

/// Adds the forms to the text, one space between them.
pub fn push_forms(text: &mut String, alloc: Global, forms: &[Form]) -> Result<(), AllocError>
    ensures { OnOk result (string_bytes text.new ≡ string_bytes text.old ++ forms_text forms.now) }
{
    match forms {
        [] => Ok(()),
        [form] => text.push_str(form_text(alloc, *form)?.as_str()),
        [form, rest @ ..] => {
            text.push_str(form_text(alloc, *form)?.as_str())?;
            text.push(' ')?;
            push_forms(text, alloc, rest)
        }
    }
}
