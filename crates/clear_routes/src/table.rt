//! What may be asked of the office, and the table of its paths.
use crate::kinds::Kind::{Claim, Employer, List, Month, Run, Worker};
use crate::kinds::Kinds::{self, One, Two, Zero};
use crate::methods::Methods::{self, Get, Post, PostPut};

/// What is commanded.
#[derive(Clone, Copy)]
pub enum CommandKind {
    AddRate,
    Register,
    EndMembership,
    Report,
    Correct,
    Claim,
    Withdraw,
    Release,
    PayoutList,
    RemindRun,
    ImportBank,
    Assign,
}

/// What is asked.
#[derive(Clone, Copy)]
pub enum QueryKind {
    Owed,
    Statement,
    Worker,
    Suspense,
    Payout,
    Reminder,
}

/// What the router keeps of a path.
#[derive(Clone, Copy)]
pub struct Row {
    pub kinds: Kinds,
    pub methods: Methods,
}

/// Each path of the office: its text, with a name in braces for each parameter, the kinds of the
/// parameters in their order, and what its methods ask for. Contracts read this very table.
pub const PATHS: &'static [(&'static str, Kinds, Methods)] = &[
    ("/rates", Zero, Post(CommandKind::AddRate)),
    ("/employers", Zero, Post(CommandKind::Register)),
    (
        "/employers/{employer}/end",
        One(Employer),
        Post(CommandKind::EndMembership),
    ),
    (
        "/employers/{employer}/reports/{month}",
        Two(Employer, Month),
        PostPut(CommandKind::Report, CommandKind::Correct),
    ),
    (
        "/employers/{employer}/claims",
        One(Employer),
        Post(CommandKind::Claim),
    ),
    (
        "/employers/{employer}/claims/{claim}/withdraw",
        Two(Employer, Claim),
        Post(CommandKind::Withdraw),
    ),
    (
        "/claims/{claim}/release",
        One(Claim),
        Post(CommandKind::Release),
    ),
    ("/bank", Zero, Post(CommandKind::ImportBank)),
    ("/assign", Zero, Post(CommandKind::Assign)),
    ("/payouts", Zero, Post(CommandKind::PayoutList)),
    ("/reminders", Zero, Post(CommandKind::RemindRun)),
    (
        "/employers/{employer}/owed",
        One(Employer),
        Get(QueryKind::Owed),
    ),
    (
        "/employers/{employer}/statement",
        One(Employer),
        Get(QueryKind::Statement),
    ),
    ("/workers/{worker}", One(Worker), Get(QueryKind::Worker)),
    ("/suspense", Zero, Get(QueryKind::Suspense)),
    ("/payouts/{list}", One(List), Get(QueryKind::Payout)),
    ("/reminders/{run}", One(Run), Get(QueryKind::Reminder)),
];
