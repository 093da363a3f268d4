// Lists as recorded answers have them, with commas between.
ghost use Rattle.replay.specs.Elements.{with_commas};

use std::fmt;
use std::fmt::Display;

/// Items, printed with commas between. No items are printed as a single -.
#[derive(Clone, Copy)]
pub struct WithCommas<'a, T>(pub &'a [T]);

impl<T: Display> Display for WithCommas<'_, T> {
    ghost output = { λ list. with_commas T.output list.0.now };

    fn fmt<W: fmt::Write>(&self, f: &mut fmt::Formatter<W>) -> fmt::Result {
        let Some((first, rest)) = self.0.split_first() else {
            return write!(f, "-");
        };
        write!(f, "{first}")?;
        for item in rest {
            write!(f, ",{item}")?;
        }
        Ok(())
    }
}

#[cfg(test)]
mod tests {
    use super::*;

    #[test]
    fn prints_commas_between(rt: HostRuntime) -> anyhow::Result<()> {
        assert_eq!(rt;
            WithCommas(&[3u8, 1, 2]).to_string(rt.alloc())?.as_str(),
            "3,1,2"
        );
        assert_eq!(rt; WithCommas::<u8>(&[]).to_string(rt.alloc())?.as_str(), "-");
        Ok(())
    }
}
