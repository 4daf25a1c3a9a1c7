// Commands that change the image, each a step on one product.
ghost use Rattle.std.specs.Prelude.{◌≡◌};
ghost use Rattle.steps.specs.Steps.{next};
ghost use Rattle.console.specs.Changes.{step_of};

use crate::answers::plain;
use crate::commands::{Change, Numbers};

pub(crate) fn change(rt: &impl Print, asked: Change, numbers: &Numbers, image: &mut [u8])
    ensures { image.new ≡ next image.old (step_of asked numbers.now.list) }
{
    match asked {
        Change::Field(j, field, value) => plain(rt, card::write_field(image, j, field, value)),
        Change::Record(j, typ, revision) => {
            let all = numbers.part(3);
            plain(rt, card::write_record(image, j, typ, revision, &all))
        }
        Change::Mark(j, mark) => plain(rt, card::mark(image, j, mark)),
    }
}
