//! The parameters that stand in a target.
ghost use Rattle.std.specs.Prelude.{◌≡◌, ◌≢◌, ◌≤◌, ℕ, List, IfSome, IfNone};
ghost use Rattle.std.specs.Fmt.{decimal};
ghost use Rattle.clear_routes.specs.Kinds.{IsOfKind, AreOfKinds, kinds_in, spelling, spellings};
ghost use Rattle.clear_routes.specs.Kinds.{with_value, parameters, least};
ghost use Rattle.clear_routes.specs.Raw.{texts_in};

use crate::kinds::{Kind, Kinds};
use crate::paths::Texts;
use clear_book::limits::MAX_ENTRIES;
use clear_book::numbers::{ClaimNo, ListNo, RunNo};
use clear_money::months::Month;
use clear_money::numbers::{EmployerNo, WorkerNo, read_number};

/// What stands in a target for the parameters of its path, by kinds. Of a kind that the path
/// doesn't have, it is the least value.
#[derive(Clone, Copy)]
pub struct Parameters {
    pub employer: EmployerNo,
    pub month: Month,
    pub claim: ClaimNo,
    pub worker: WorkerNo,
    pub list: ListNo,
    pub run: RunNo,
}

impl Parameters {
    /// No parameter.
    fn none() -> Parameters
        ensures { result ≡ least }
    {
        let (Some(employer), Some(month)) = (EmployerNo::new(1), Month::new(2000, 1)) else {
            unreachable!()
        };
        let (Some(claim), Some(worker)) = (ClaimNo::new(1), WorkerNo::new(1)) else {
            unreachable!()
        };
        let (Some(list), Some(run)) = (ListNo::new(1), RunNo::new(1)) else {
            unreachable!()
        };
        Parameters {
            employer,
            month,
            claim,
            worker,
            list,
            run,
        }
    }

    /// These and one more, which the text spells. None if it spells no value of the kind.
    fn with(self, kind: Kind, text: &str) -> Option<Parameters>
        ensures found { IfSome result (λ parameters. (n : ℕ) × IsOfKind kind n
            × (spelling kind n ≡ text.now) × (parameters ≡ with_value kind n self)) }
        ensures only { IfNone result ((n : ℕ) → IsOfKind kind n → spelling kind n ≢ text.now) }
    {
        match kind {
            Kind::Employer => {
                let employer = EmployerNo::new(number_in(text, EmployerNo::MAX)?)?;
                Some(Parameters { employer, ..self })
            }
            Kind::Month => {
                let month = month_in(text)?;
                Some(Parameters { month, ..self })
            }
            Kind::Claim => {
                let claim = ClaimNo::new(number_in(text, MAX_ENTRIES)?)?;
                Some(Parameters { claim, ..self })
            }
            Kind::Worker => {
                let worker = WorkerNo::new(number_in(text, WorkerNo::MAX)?)?;
                Some(Parameters { worker, ..self })
            }
            Kind::List => {
                let list = ListNo::new(number_in(text, MAX_ENTRIES)?)?;
                Some(Parameters { list, ..self })
            }
            Kind::Run => {
                let run = RunNo::new(number_in(text, MAX_ENTRIES)?)?;
                Some(Parameters { run, ..self })
            }
        }
    }
}

/// The parameters of these kinds that the texts spell. None if one isn't a value's spelling.
pub(crate) fn parameters_in(kinds: Kinds, texts: Texts<'_>) -> Option<Parameters>
    ensures found { IfSome result (λ found. (numbers : List ℕ)
        × AreOfKinds (kinds_in kinds) numbers
        × (spellings (kinds_in kinds) numbers ≡ texts_in texts.entry)
        × (found ≡ parameters (kinds_in kinds) numbers)) }
    ensures only { IfNone result ((numbers : List ℕ) → AreOfKinds (kinds_in kinds) numbers
        → spellings (kinds_in kinds) numbers ≢ texts_in texts.entry) }
{
    match kinds {
        Kinds::Zero => match texts {
            Texts::Zero => Some(Parameters::none()),
            Texts::One(_) | Texts::Two(_, _) => None,
        },
        Kinds::One(kind) => match texts {
            Texts::One(text) => Parameters::none().with(kind, text),
            Texts::Zero | Texts::Two(_, _) => None,
        },
        Kinds::Two(kind, next) => match texts {
            Texts::Two(text, later) => {
                let Some(parameters) = Parameters::none().with(next, later) else {
                    return None;
                };
                parameters.with(kind, text)
            }
            Texts::Zero | Texts::One(_) => None,
        },
    }
}

/// The number from 1 to `most` that the text spells.
fn number_in(text: &str, most: u64) -> Option<u64>
    ensures found { IfSome result (λ n. (1 ≤ n) × (n ≤ most) × (decimal n ≡ text.now)) }
    ensures only { IfNone result ((n : ℕ) → 1 ≤ n → n ≤ most → decimal n ≢ text.now) }
{
    let Some(number) = read_number(text.as_bytes()) else {
        return None;
    };
    if number < 1 || number > most {
        return None;
    }
    Some(number)
}

/// The month that is written so.
fn month_in(text: &str) -> Option<Month>
    ensures found { IfSome result (λ n. IsOfKind Kind.Month n
        × (spelling Kind.Month n ≡ text.now)) }
    ensures only { IfNone result ((n : ℕ) → IsOfKind Kind.Month n
        → spelling Kind.Month n ≢ text.now) }
{
    Month::read(text.as_bytes())
}
