// Sets of codes. A script names the code of each call by a value, so that one script can use several codes; a set says
// what its values name.
ghost use Rattle.std.specs.Prelude.{◌≡◌, ℕ, true, ◌++◌, drop, min, replicate, take};
ghost use Rattle.book.specs.Calls.{Follows, plain_answer, seal};
ghost use Rattle.book.specs.declared.call_fault.CallFault.TheVariants.{Code as of_code};
ghost use Rattle.algebra.specs.NumericCode.{NumericCode};
ghost use Rattle.book.specs.Codes.{IsLawful};
ghost use Rattle.correction.specs.Answers.{FindsNear};
ghost use Rattle.lists.specs.Faults.{zeros_if};
ghost use Rattle.script.specs.Script.{workspace_left};
ghost use Rattle.either.specs.Either.{either};

use crate::script::Lent;
use book::CodeFault;
use checksum::Checksum;
use correction::{Found, find};
use either::{Either, Left, Right};
use fields::{ExtensionField, Field};
use slip::Slip;
use std::marker::PhantomData;

/// A set of one code, C: its only value names it.
#[derive_where(Clone, Copy)]
pub struct Single<C> {
    pub code: PhantomData<C>,
}

/// The working list of one code, over the field in which it corrects: 216 elements are as many as any bound asks. A number and
/// no constant, here and wherever memory is fixed, since clauses and invariants speak of it too.
#[derive(Drop)]
pub struct Workspace<E> {
    pub work: [E; 216],
}

/// A set of codes. A value of it names one of them; its workspace owns the working lists of all of them, each over the field
/// in which its code corrects, so that a caller need not know those fields. The slip, the records and the workspace of a call are lent by
/// three owners, and so are three parameters.
pub trait CodeSet: Copy {
    type Workspace;

    // The code that a value names, as its rows know it.
    ghost codes: { Self → NumericCode };

    // A workspace is clear where each of its working lists holds ZEROs alone.
    ghost clear: { Self.Workspace → Type 0 };

    // A workspace after a search by a code in so many elements of its working list: they are ZERO.
    ghost cleared: { Self → ℕ → Self.Workspace → Self.Workspace };

    /// Every code of the set is lawful. Generic code calls this to have the laws at hand.
    fn laws()
        ensures { (k : Self) → IsLawful (codes k) };

    /// A search leaves a clear workspace clear.
    fn stays_clear()
        ensures { (k : Self) (w : ℕ) (space : Self.Workspace)
            → clear space → clear (cleared k w space) };

    /// A clear workspace.
    fn workspace() -> Self::Workspace
        ensures { clear result };

    /// Seals a slip by the code.
    fn seal(self, slip: &mut Slip) -> Result<(), CodeFault>
        ensures { Follows slip.old (seal (codes self)) (plain_answer of_code result) slip.new };

    /// Finds the row near the row of a slip, by the code, with as much lent as `lent` says.
    fn find(
        self,
        slip: &Slip,
        lent: Lent,
        workspace: &mut Self::Workspace,
    ) -> Result<Found, CodeFault>
        ensures found { FindsNear (codes self) lent.records lent.working slip.now result }
        ensures working { workspace.new
            ≡ workspace_left (cleared self lent.working) result workspace.old };
}

impl<C: Checksum> CodeSet for Single<C> {
    type Workspace = Workspace<C::CorrectionField>;

    ghost codes = { λ _. C.rows };

    ghost clear = { λ d. d.work ≡ replicate 216 C.CorrectionField.field.𝟘 };

    ghost cleared = { λ _ w d. record {
      work = zeros_if C.CorrectionField.field true (take (min w 216) d.work) ++ drop (min w 216) d.work;
    } };

    fn laws() {
        C::laws();
        C::CorrectionField::lift_laws();
    }

    fn stays_clear() {}

    fn workspace() -> Workspace<C::CorrectionField> {
        C::CorrectionField::small();
        Workspace {
            work: [C::CorrectionField::ZERO; 216],
        }
    }

    fn seal(self, slip: &mut Slip) -> Result<(), CodeFault> {
        C::laws();
        C::CorrectionField::lift_laws();
        slip.seal::<C>()
    }

    // What is lent past the workspace's end makes no difference: no code asks for it.
    fn find(
        self,
        slip: &Slip,
        lent: Lent,
        workspace: &mut Workspace<C::CorrectionField>,
    ) -> Result<Found, CodeFault> {
        C::laws();
        find::<C>(
            slip,
            lent.records,
            &mut workspace.work[..lent.working.min(216)],
        )
    }
}

// Two sets as one: a value names a code of the first or of the second.
impl<A: CodeSet, B: CodeSet> CodeSet for Either<A, B> {
    type Workspace = (A::Workspace, B::Workspace);

    ghost codes = { either A.codes B.codes };

    ghost clear = { λ d. A.clear d.0 × B.clear d.1 };

    ghost cleared = { either (λ a w d. (A.cleared a w d.0, d.1)) (λ b w d. (d.0, B.cleared b w d.1)) };

    fn laws() {
        A::laws();
        B::laws();
    }

    fn stays_clear() {
        A::stays_clear();
        B::stays_clear();
    }

    fn workspace() -> (A::Workspace, B::Workspace) {
        (A::workspace(), B::workspace())
    }

    fn seal(self, slip: &mut Slip) -> Result<(), CodeFault> {
        match self {
            Left(a) => a.seal(slip),
            Right(b) => b.seal(slip),
        }
    }

    fn find(
        self,
        slip: &Slip,
        lent: Lent,
        workspace: &mut (A::Workspace, B::Workspace),
    ) -> Result<Found, CodeFault> {
        match self {
            Left(a) => a.find(slip, lent, &mut workspace.0),
            Right(b) => b.find(slip, lent, &mut workspace.1),
        }
    }
}
