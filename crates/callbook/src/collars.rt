// The collar that a line names.
ghost use Rattle.std.specs.Prelude.{◌≡◌, Some, MatchResult};
ghost use Rattle.callbook.specs.Lines.{words_fault, Made};

use collar::{AnyCollar, AroundLast, AroundStatic, CollarFault, FixedBand};
use script::{CollarWords, PlainCollar};

fn plain_collar(words: PlainCollar) -> Result<AnyCollar, CollarFault>
    ensures { MatchResult result (Made (CollarWords.Plain words)) (λ f. words_fault (CollarWords.Plain words) ≡ Some f) }
{
    match words {
        PlainCollar::Unlimited => Ok(AnyCollar::Band(FixedBand::widest())),
        PlainCollar::FixedBand { low, high } => Ok(AnyCollar::Band(FixedBand::new(low, high)?)),
        PlainCollar::AroundLast { k } => Ok(AnyCollar::AroundLast(AroundLast::new(k)?)),
    }
}

// Each arm wants the collar underneath by its own type, which plain_collar hides in an AnyCollar.
fn static_collar(k: u32, over: PlainCollar) -> Result<AnyCollar, CollarFault>
    ensures { MatchResult result (Made (CollarWords.AroundStatic k over)) (λ f. words_fault (CollarWords.AroundStatic k over) ≡ Some f) }
{
    match over {
        PlainCollar::Unlimited => Ok(AnyCollar::StaticBand(AroundStatic::new(
            k,
            FixedBand::widest(),
        )?)),
        PlainCollar::FixedBand { low, high } => {
            let band = FixedBand::new(low, high)?;
            Ok(AnyCollar::StaticBand(AroundStatic::new(k, band)?))
        }
        PlainCollar::AroundLast { k: inner } => {
            let around_last = AroundLast::new(inner)?;
            Ok(AnyCollar::StaticLast(AroundStatic::new(k, around_last)?))
        }
    }
}

// The collar of these words, or why they make none.
pub(crate) fn collar_of(words: CollarWords) -> Result<AnyCollar, CollarFault>
    ensures { MatchResult result (Made words) (λ f. words_fault words ≡ Some f) }
{
    match words {
        CollarWords::Plain(plain) => plain_collar(plain),
        CollarWords::AroundStatic { k, over } => static_collar(k, over),
    }
}
