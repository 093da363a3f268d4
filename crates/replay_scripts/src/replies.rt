// Replies as scripts write them.
use script::{Answer, Reply};
use sheet::{Layer, Refusal};
use std::fmt;
use std::fmt::Display;

/// A reply: `done`; `refused` with the refusal's number, its layer and its place; or `listed` with each record as place:change, in
/// their order, and with n, how many they are, and z, how many change something.
#[derive(Clone, Copy)]
pub struct ReplyText(pub Reply);

impl Display for ReplyText {
    fn fmt<W: fmt::Write>(&self, f: &mut fmt::Formatter<W>) -> fmt::Result {
        match self.0 {
            Ok(Answer::Done) => write!(f, "done"),
            Ok(Answer::Listed(listing)) => {
                write!(f, "listed")?;
                for record in listing.records() {
                    write!(f, " {}:{}", record.place, record.change)?;
                }
                write!(f, " n={} z={}", listing.records().len(), listing.nonzero())
            }
            Err(fault) => {
                let Refusal {
                    number,
                    layer,
                    place,
                } = Refusal::from(fault);
                write!(f, "refused {number} {} {place}", layer_name(layer))
            }
        }
    }
}

fn layer_name(layer: Layer) -> &'static str {
    match layer {
        Layer::Field => "field",
        Layer::List => "list",
        Layer::Code => "code",
        Layer::Slip => "slip",
        Layer::Line => "line",
        Layer::Sheet => "sheet",
    }
}
