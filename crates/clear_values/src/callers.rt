//! Who calls.

use clear_money::numbers::EmployerNo;

/// Who calls. All clerks are one caller, and a firm is one whatever its keys.
#[derive(Clone, Copy)]
pub enum Caller {
    Firm(EmployerNo),
    Clerk,
}
