ghost use Rattle.std.specs.Prelude.{◌≡◌, ◌++◌, map, IfOk, IsSome, vec_items, string_bytes, OnOk};
ghost use Rattle.std.specs.Option.{option_map};
ghost use Rattle.wiring.specs.Lines.{printed, report, text};

use super::lines::Count;
use super::surveys::Survey;
use std::alloc::{AllocError, Global};
use std::fmt::Display;

// All that is printed of a survey: a line for each refusal, then one for each edge and one for their number if there is a graph.
pub fn report_text(heap: Global, survey: &Survey) -> Result<String, AllocError>
    ensures { IfOk result (λ s. string_bytes s ≡ report survey.now.refusals.items (option_map vec_items survey.now.wires)) }
{
    let mut out = String::new(heap);
    push_lines(&mut out, survey.refusals.as_slice())?;
    if let Some(wires) = &survey.wires {
        push_lines(&mut out, wires.as_slice())?;
        push_lines(&mut out, &[Count(wires.len())])?;
    }
    Ok(out)
}

// Adds a line for each item, ended by a line feed, which stands in the text so that a planted bug can change it and nothing else.
fn push_lines<T: Display>(out: &mut String, items: &[T]) -> Result<(), AllocError>
    requires { (x : T) → IsSome (T.output x) }
    ensures { OnOk result (string_bytes out.new ≡ string_bytes out.old ++ text (map (λ x. printed (T.output x)) items.now)) }
{
    for item in items {
        write!(out, "{item}\n")?;
    }
    Ok(())
}
