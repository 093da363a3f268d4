// Outcomes as recorded answers have them: a value, or a refusal by its number.
ghost use Rattle.std.specs.Prelude.{◌≡◌, IfOk, IfErr, string_bytes};
ghost use Rattle.replay.specs.Outcomes.{IsPrinted, recorded_refusal};

use std::alloc::Global;
use std::fmt::Display;

/// A refusal by its number, where memory suffices.
pub fn write_refusal(heap: Global, number: u8) -> anyhow::Result<String>
    ensures { IfOk result (λ text. string_bytes text ≡ recorded_refusal number) }
{
    Ok(format!(in heap; "refusal {number}")?)
}

/// The value's text, or the number of the refusal, where memory suffices.
pub fn write_outcome<T: Display + Drop>(
    heap: Global,
    outcome: Result<T, u8>,
) -> anyhow::Result<String>
    ensures value { IfOk result (λ text. IfOk outcome (λ value. IsPrinted (T.output value) (string_bytes text))) }
    ensures refusal { IfOk result (λ text. IfErr outcome (λ number. string_bytes text ≡ recorded_refusal number)) }
{
    match outcome {
        Ok(value) => Ok(value.to_string(heap)?),
        Err(number) => write_refusal(heap, number),
    }
}

#[cfg(test)]
mod tests {
    use super::*;

    #[test]
    fn writes_the_number(rt: HostRuntime) -> anyhow::Result<()> {
        assert_eq!(rt; write_refusal(rt.alloc(), 12)?.as_str(), "refusal 12");
        Ok(())
    }

    #[test]
    fn writes_value_or_refusal(rt: HostRuntime) -> anyhow::Result<()> {
        for (outcome, text) in [(Ok(31u16), "31"), (Err(12), "refusal 12")] {
            assert_eq!(rt; write_outcome(rt.alloc(), outcome)?.as_str(), text);
        }
        Ok(())
    }
}
