// Why a list function refuses, and the test that most of them begin with.
ghost use Rattle.std.specs.Prelude.{◌≡◌, ◌<◌, ◌≤◌, IfOk};
ghost use Rattle.lists.specs.Faults.{admit};
ghost use Rattle.lists.specs.declared.fault.ListFault.TheVariants.{Field as of_field};

use fields::FieldFault;

/// Why a list is refused.
#[derive(Clone, Copy, Debug)]
pub enum ListFault {
    /// A list has no entry.
    Empty,
    /// A buffer is too short for what is to be written.
    Short,
    /// The field refused.
    Field(FieldFault),
}

/// The field's fault, whole.
impl From<FieldFault> for ListFault {
    ghost from_gives = { λ e r. r ≡ of_field e };

    fn from(fault: FieldFault) -> ListFault {
        ListFault::Field(fault)
    }
}

/// How many entries an answer has. It is refused where the shortest list passed has none, or where the answer's buffer is
/// too short.
pub fn admit(given: usize, needed: usize, room: usize) -> Result<usize, ListFault>
    ensures answer { result ≡ admit given needed room }
    ensures holds { IfOk result (λ n. (n ≡ needed) × (n ≤ room) × (0 < given)) }
{
    if given == 0 {
        return Err(ListFault::Empty);
    }
    if room < needed {
        return Err(ListFault::Short);
    }
    Ok(needed)
}
