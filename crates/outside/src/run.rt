// A run of questions to one source.
ghost use Rattle.std.specs.Prelude.{◌≡◌, ◌++◌, map, IfOk, OnOk};
ghost use Rattle.calendar.specs.declared.stamp.Stamp.{Stamp};

use calendar::Stamp;
use std::alloc::{AllocError, Global};
use tariffs::{PriceSource, SourceFault};

// Asks one question after the other. That what the source means stays is a fact of before and after, which no type can hold. However many come before it, each is answered by what the source meant at the start.
pub fn ask_each<P: PriceSource>(
    heap: Global,
    source: &mut P,
    questions: &[Stamp],
) -> Result<Vec<Result<u32, SourceFault>>, AllocError>
    ensures law { IfOk result (λ answers. answers.items ≡ map (P.PriceSource.means source.old) questions.now) }
    ensures kept { (s : Stamp) → P.PriceSource.means source.new s ≡ P.PriceSource.means source.old s }
{
    let mut answers = Vec::new(heap);
    append(source, questions, &mut answers)?;
    Ok(answers)
}

// The answers of the questions, behind those that are there.
fn append<P: PriceSource>(
    source: &mut P,
    questions: &[Stamp],
    answers: &mut Vec<Result<u32, SourceFault>>,
) -> Result<(), AllocError>
    ensures law { OnOk result (answers.new.items ≡ answers.old.items ++ map (P.PriceSource.means source.old) questions.now) }
    ensures kept { (s : Stamp) → P.PriceSource.means source.new s ≡ P.PriceSource.means source.old s }
{
    for at in questions {
        answers.push(source.price(*at))?;
    }
    Ok(())
}
