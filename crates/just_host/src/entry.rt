//! What was asked of a host, with what it answered.
use crate::host::{Answer, Confirmation, HostFault, Question, Status};
use crate::job::{CommandJob, DotenvRequest, Pair, ScriptJob};
use just_text::{Sequence, Text};

/// One thing that was asked of a host, with its answer.
#[derive(Drop)]
pub enum Entry {
    Asked(Question, Answer),
    Line(CommandJob, Status),
    Script(ScriptJob, Status),
    /// A prompt.
    Confirm(Text, Confirmation),
    /// A text that was shown.
    Show(Text),
    Dotenv(DotenvRequest, Result<Sequence<Pair>, HostFault>),
}
