//! What a session has between two lines, and its replies.
ghost use Rattle.std.specs.Prelude.{◌≡◌, IfOk};
ghost use Rattle.cu_calculus.specs.FlatProgram as flats;
ghost use Rattle.cu_cmd.specs.Inside.Conversations.{Answers, IsHeld, IsReady, Opens, Says};
ghost use Rattle.cu_cmd.specs.Inside.Conversations.{TakesOn};
ghost use Rattle.cu_cmd.specs.Inside.Conversations.{asking_of};
ghost use Rattle.cu_cmd.specs.Replies.{fresh};
ghost use Rattle.cu_flat.specs.Layout.{laid_out};
ghost use Rattle.cu_front.specs.CompileAnswers.{HasGoal};
ghost use Rattle.cu_front.specs.Compiling.{Folder};
ghost use Rattle.cu_front.specs.RefusalLine.{refusal_line};
ghost use Rattle.cu_front.specs.RefusalMeaning.{RefusalIsKnown, refusal_meaning};
ghost use Rattle.cu_search.specs.Rounds.{IsWorkerCount};
ghost use Rattle.cu_words.specs.Requests.{Ask, IsSettingInRange, Limit, Next};

use crate::question::{Listed, Pending, Question, begin};
use cu_front::{AskFault, Compiled, Loaded, Refusal, ask, copy_names};
use cu_frozen::FrozenStore;
use cu_graph::Store;
use cu_machine::SearchLimits;
use cu_names::Names;
use cu_session::Turn;
use cu_words::{Setting, default_limits};
use std::alloc::{AllocError, Global};
use std::mem;

/// A module that is loaded, with all that it imports.
#[derive(Drop)]
pub(crate) struct LoadedModule {
    pub(crate) name: String,
    /// The names of the modules. A goal's names are in a table of its own.
    pub(crate) names: Names,
    pub(crate) modules: Loaded,
}

/// What a session has between two lines.
#[derive(Drop)]
pub(crate) struct Conversation<S: Store> {
    pub(crate) loaded: Option<LoadedModule>,
    /// The limits of later questions.
    pub(crate) limits: SearchLimits,
    /// How many workers later questions have, 1 to 64, where a number is named.
    pub(crate) workers: Option<u32>,
    pub(crate) question: Option<Question<S>>,
}

impl<S: Store + Send + Sync> Conversation<S> {
    /// A session before its first line.
    pub(crate) fn new() -> Conversation<S>
        ensures fresh { (folder : Folder) → asking_of S.content folder result ≡ fresh folder }
        ensures held { (folder : Folder) → IsHeld folder result }
        ensures ready { IsReady S.content result }
    {
        Conversation {
            loaded: None,
            limits: default_limits(),
            workers: None,
            question: None,
        }
    }

    /// Replies to `ask` with this text.
    pub(crate) fn ask(
        &mut self,
        alloc: Global,
        text: &[u8],
        reply: &mut Vec<u8>,
    ) -> Result<Turn, AllocError>
        requires { IsReady S.content self.old }
        ensures { IfOk result (λ turn. Answers S.content (Ask text.now) turn self.old self.new
            reply.old.items reply.new.items) }
    {
        let Some(loaded) = &self.loaded else {
            return say(reply, "no module\n");
        };
        let mut names = copy_names(alloc, &loaded.names)?;
        match ask(alloc, &mut names, &loaded.modules, text) {
            Ok(compiled) => self.open(alloc, names, compiled, reply),
            Err(AskFault::Refused(refusal)) => say_refusal(alloc, &names, &refusal, reply),
            Err(AskFault::NoMemory) => Err(AllocError),
        }
    }

    /// Opens the question for a compiled goal.
    fn open(
        &mut self,
        alloc: Global,
        names: Names,
        compiled: Compiled,
        reply: &mut Vec<u8>,
    ) -> Result<Turn, AllocError>
        requires ready { IsReady S.content self.old }
        requires goal { HasGoal names compiled.program compiled.flat }
        requires layout { compiled.flat ≡ laid_out (flats.program_of compiled.flat) }
        ensures { IfOk result (λ turn. Opens S.content names compiled turn self.old self.new
            reply.old.items reply.new.items) }
    {
        let paused = begin(alloc, &names, &compiled, self.limits)?;
        let question = Question {
            names,
            compiled,
            paused,
            workers: self.workers,
        };
        put_question(&mut self.question, Some(question));
        say(reply, "ok\n")
    }

    /// Replies to `limits` with this setting.
    pub(crate) fn limit(
        &mut self,
        setting: Setting,
        reply: &mut Vec<u8>,
    ) -> Result<Turn, AllocError>
        requires ready { IsReady S.content self.old }
        requires range { IsSettingInRange setting }
        ensures { IfOk result (λ turn. Answers S.content (Limit setting) turn self.old self.new
            reply.old.items reply.new.items) }
    {
        self.limits = setting.apply(self.limits);
        self.workers = workers_after(setting, self.workers);
        say(reply, "ok\n")
    }
}

impl Conversation<FrozenStore> {
    /// Replies to `next`, by what adds the next lines of a question to a reply.
    pub(crate) fn next<F: Fn(Pending<FrozenStore>) -> Result<Listed<FrozenStore>, AllocError>>(
        &mut self,
        alloc: Global,
        go_on: &F,
        reply: &mut Vec<u8>,
    ) -> Result<Turn, AllocError>
        requires ready { IsReady (λ graph. graph) self.old }
        requires takes_on { TakesOn (λ graph. graph) (F.pre go_on.now) (F.post go_on.now) }
        ensures { IfOk result (λ turn. Answers (λ graph. graph) Next turn self.old self.new
            reply.old.items reply.new.items) }
    {
        let Some(question) = self.question.take() else {
            return say(reply, "no question\n");
        };
        let pending = Pending {
            question,
            reply: mem::replace(reply, Vec::new(alloc)),
        };
        let listed = go_on(pending)?;
        put_question(&mut self.question, listed.question);
        *reply = listed.reply;
        say(reply, ".\n")
    }
}

/// Puts a question, or none, in place of the one that was there.
fn put_question<S: Store>(place: &mut Option<Question<S>>, question: Option<Question<S>>)
    ensures { place.new ≡ question }
{
    let _before = mem::replace(place, question);
}

/// How many workers later questions have after a setting.
fn workers_after(setting: Setting, workers: Option<u32>) -> Option<u32>
    requires range { IsSettingInRange setting }
    requires workers { IsWorkerCount workers }
    ensures { IsWorkerCount result }
{
    match setting {
        Setting::Workers(count) => Some(count),
        _ => workers,
    }
}

/// Adds a text to a reply, after which the session goes on.
pub(crate) fn say(reply: &mut Vec<u8>, text: &str) -> Result<Turn, AllocError>
    ensures { IfOk result (λ turn. Says turn text.now reply.old.items reply.new.items) }
{
    reply.extend_from_slice(text.as_bytes())?;
    Ok(Turn::Go)
}

/// Adds the line of a refusal to a reply, after which the session goes on.
pub(crate) fn say_refusal(
    alloc: Global,
    names: &Names,
    refusal: &Refusal,
    reply: &mut Vec<u8>,
) -> Result<Turn, AllocError>
    requires known { RefusalIsKnown names.now refusal.now }
    ensures { IfOk result (λ turn. Says turn (refusal_line (refusal_meaning names.now refusal.now))
        reply.old.items reply.new.items) }
{
    let line = refusal.line(alloc, names)?;
    say(reply, line.as_str())
}
