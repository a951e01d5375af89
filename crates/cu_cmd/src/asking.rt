//! What replies to the lines of a session.
ghost use Rattle.std.specs.Prelude.{◌≡◌, ℕ, None, Some, IfOk, IfSome, OnErr, option_map};
ghost use Rattle.cu_cmd.specs.Inside.Conversations.{IsHeld, IsReady, Loads, asking_of};
ghost use Rattle.cu_cmd.specs.Inside.Conversations.{TakesOn, session_folder};
ghost use Rattle.cu_cmd.specs.Replies.{Asking, Replies};

use crate::conversation::{Conversation, LoadedModule, say, say_refusal};
use crate::question::{Listed, Pending};
use cu_front::{AskedModule, CompileFault, load};
use cu_frozen::FrozenStore;
use cu_graph::Store;
use cu_io::Library;
use cu_names::Names;
use cu_session::{Asker, Turn};
use cu_words::{Request, read_line};
use std::alloc::{AllocError, Global};

/// What replies to the lines of a session, over a library. `go_on` adds the
/// next lines of a question to a reply.
#[derive(Drop)]
pub(crate) struct Replier<'a, F, L> {
    pub(crate) go_on: F,
    pub(crate) library: &'a mut L,
    pub(crate) conversation: &'a mut Conversation<FrozenStore>,
}

impl<'a, F: Fn(Pending<FrozenStore>) -> Result<Listed<FrozenStore>, AllocError>, L: Library> Asker
    for Replier<'a, F, L> {
    ghost fault_count = { λ replier. L.fault_count replier.library.now };

    ghost State = { Asking };

    ghost state = { λ replier. option_map (λ held.
        asking_of (λ graph. graph) (session_folder held) replier.conversation.now)
        (L.holdings replier.library.now) };

    ghost answers = { Replies };

    ghost is_ready = { λ replier.
        TakesOn (λ graph. graph) (F.pre replier.go_on) (F.post replier.go_on)
        × IsReady (λ graph. graph) replier.conversation.now
        × IfSome (L.holdings replier.library.now) (λ held.
        IsHeld (session_folder held) replier.conversation.now) };

    ghost Kept = { ℕ };

    ghost kept = { λ replier. replier.library.ghost_name };

    fn reply(&mut self, alloc: Global, line: &[u8], out: &mut Vec<u8>) -> Result<Turn, AllocError> {
        match read_line(line) {
            Request::Load(name) => {
                // A count that stands at the last number does not fall.
                let _before = self.library.faults();
                load_module(alloc, name, self.library, self.conversation, out)
            }
            Request::Ask(text) => self.conversation.ask(alloc, text, out),
            Request::Next => self.conversation.next(alloc, &self.go_on, out),
            Request::Limit(setting) => self.conversation.limit(setting, out),
            Request::Quit => {
                say(out, "bye\n")?;
                Ok(Turn::Quit)
            }
            Request::Unknown => say(out, "bad command\n"),
        }
    }
}

/// Replies to `load` with this name. Where the library fails nothing is
/// replied, and the session ends.
fn load_module<L: Library, S: Store + Send + Sync>(
    alloc: Global,
    name: &str,
    library: &mut L,
    conversation: &mut Conversation<S>,
    reply: &mut Vec<u8>,
) -> Result<Turn, AllocError>
    requires { IsReady S.content conversation.old }
    ensures loads { IfOk result (λ turn. Loads S.content (L.holdings library.old) name.now turn
        conversation.old conversation.new reply.old.items reply.new.items
        (L.fault_count library.old) (L.fault_count library.new)) }
    ensures same { L.holdings library.new ≡ L.holdings library.old }
    ensures count { OnErr result (L.fault_count library.new ≡ L.fault_count library.old) }
{
    let mut names = Names::new(alloc);
    let asked = AskedModule {
        root: name,
        folder: ".",
    };
    match load(alloc, &mut names, asked, library) {
        Ok(modules) => {
            let name = String::from_str(alloc, name)?;
            let taken = LoadedModule {
                name,
                names,
                modules,
            };
            take_up(conversation, taken);
            say(reply, "ok\n")
        }
        Err(CompileFault::Refused(refusal)) => say_refusal(alloc, &names, &refusal, reply),
        Err(CompileFault::Fetch) => Ok(Turn::Quit),
        Err(CompileFault::NoMemory) => Err(AllocError),
    }
}

/// Takes up a module in place of the one before. No question is open then.
fn take_up<S: Store + Send + Sync>(conversation: &mut Conversation<S>, taken: LoadedModule)
    ensures loaded { conversation.new.loaded ≡ Some taken }
    ensures question { conversation.new.question ≡ None }
    ensures limits { conversation.new.limits ≡ conversation.old.limits }
    ensures workers { conversation.new.workers ≡ conversation.old.workers }
{
    let _before = conversation.loaded.replace(taken);
    let _question = conversation.question.take();
}
