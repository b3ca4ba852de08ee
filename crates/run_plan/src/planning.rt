//! A host that passes questions on and hands nothing over.
ghost use Rattle.std.specs.Prelude.{◌≡◌, refl};
ghost use Rattle.std.proofs.Common.{◌∙◌};
ghost use Rattle.just_host.specs.Follows.{Follows, questions};
ghost use Rattle.just_host.specs.Steps.{idle, questions-join, then};
ghost use Rattle.run_plan.specs.Answered.{AreWellAnswered, answered_then};
ghost use Rattle.just_host.specs.declared.host.Confirmation.TheVariants.{Yes};
ghost use Rattle.just_host.specs.declared.host.Status.TheVariants.{Code};

use just_host::{
    Answer, CommandJob, Confirmation, DotenvRequest, Host, HostFault, Pair, Question, Recorded,
    RunHost, ScriptJob, Status,
};
use just_text::Sequence;

/// Passes questions, and requests for files of variables, on to the record that it borrows. It
/// answers each command and each script with code 0 and each prompt with yes, and shows nothing.
#[derive(Drop)]
pub struct Planning<'a, G> {
    pub caller: &'a mut Recorded<G>,
}

impl<G: RunHost + Drop> Host for Planning<'_, G> {
    ghost goes = { λ a piece b. (b.caller.ghost_name ≡ a.caller.ghost_name) × Follows G.goes a.caller.now (questions piece) b.caller.now × AreWellAnswered piece };

    fn ask(&mut self, question: &Question) -> Answer {
        self.caller.ask(question)
    }

    ghost nothing = { λ a. (refl, idle G.goes G.nothing a.caller.now, tt) };

    ghost joins = { λ a b c p q first second. (second.0 ∙ first.0, questions-join (Follows G.goes) (then G.goes G.joins) a.caller.now b.caller.now c.caller.now p q first.1 second.1, answered_then p q first.2 second.2) };
}

impl<G: RunHost + Drop> RunHost for Planning<'_, G> {
    ghost may_answer = { λ status. status ≡ Code 0 };

    ghost may_confirm = { λ answer. answer ≡ Yes };

    fn line(&mut self, _job: &CommandJob) -> Status {
        Status::Code(0)
    }

    fn script(&mut self, _job: &ScriptJob) -> Status {
        Status::Code(0)
    }

    fn confirm(&mut self, _prompt: &str) -> Confirmation {
        Confirmation::Yes
    }

    fn show(&mut self, _text: &str) {}

    fn dotenv(&mut self, request: &DotenvRequest) -> Result<Sequence<Pair>, HostFault> {
        self.caller.dotenv(request)
    }
}
