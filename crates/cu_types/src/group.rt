//! The types of a dependency group: its equations, their solution, and what
//! the solution makes of the declared types.
ghost use Rattle.std.specs.Prelude.{◌≡◌, ◌+◌, ◌<◌, ℕ, [], IfOk, IsTrue, List, OnOk, length, map, option_map, slice_get};
ghost use Rattle.cu_kernel.specs.Captures.{are_rising};
ghost use Rattle.cu_kernel.specs.Kernel.{Kernel};
ghost use Rattle.cu_kernel.specs.TypesOf.{type_of};
ghost use Rattle.cu_lift.specs.Groups.{numbers};
ghost use Rattle.cu_types.specs.Equations as asked;
ghost use Rattle.cu_types.specs.Equations.{members};
ghost use Rattle.cu_types.specs.Inside.Asking.{IsAsking};
ghost use Rattle.cu_types.specs.Inside.Grouping.{AreWithin, HasNoMembers, IsInference, Outcomes, Settled, Stays, end_from, entered, known_assumptions, left, left_with, numbers_of, plain_member};
ghost use Rattle.cu_types.specs.Inside.Knowing.{AreMembers};
ghost use Rattle.cu_types.specs.Inside.Members.{group_asks};
ghost use Rattle.cu_types.specs.Inside.Reading.{IsReader};
ghost use Rattle.cu_types.specs.Meaning.{HasPlaces, subst_of, types_of_subst};
ghost use Rattle.cu_types.specs.Numbered.{numbered};
ghost use Rattle.cu_types.specs.Synonyms.{expanded};
ghost use Rattle.cu_types.specs.Table.{IsTable};

use crate::asking::Asking;
use crate::keeping::keeps;
use crate::known::{Known, Member, Signing, arity_of, numbers_at};
use crate::numbering::numbered;
use crate::synonyms::expanded;
use crate::unification::solved;
use crate::variables::Variables;
use crate::walk::Walk;
use crate::{Clash, SharedType, Subst};
use cu_kernel::{FunId, Program, TypeTerm};
use std::alloc::{AllocError, Global};

/// What stays the same while the types of a program are inferred.
#[derive(Clone, Copy)]
pub(crate) struct Inference<'p> {
    /// The allocator.
    pub(crate) alloc: Global,
    /// The program.
    pub(crate) program: &'p Program,
    /// The types that the program's synonyms stand for.
    pub(crate) synonyms: &'p [SharedType],
    /// The types of the program's constructors.
    pub(crate) constructors: &'p [SharedType],
    /// The place of the data type that set functions give, if there is one.
    pub(crate) values: Option<usize>,
}

/// What comes of inferring the types of a group.
#[derive(Drop)]
pub(crate) enum Outcome {
    /// The group's functions have their types.
    Typed,
    /// The group's rules make two types equal that can't be the same.
    Clash(Clash),
    /// The group's rules have types, but not the declared ones.
    Broken,
}

/// How many type variables an instance of a declared type takes.
fn declared_breadth(alloc: Global, declared: &Option<SharedType>) -> Result<u32, AllocError>
    ensures { IfOk result (λ count. count ≡ asked.declared_breadth declared.now) }
{
    match declared {
        Some(shared) => {
            let found = shared.breadth(alloc)?;
            let Ok(count) = u32::try_from(found) else {
                return Err(AllocError);
            };
            Ok(count)
        }
        None => Ok(0),
    }
}

/// The first type variable after those of a function.
fn end_of(alloc: Global, m: &Member) -> Result<u32, AllocError>
    ensures { IfOk result (λ end. end
        ≡ m.now.first + m.now.arity + 1 + asked.declared_breadth m.now.declared) }
{
    let right = m.right()?;
    let count = declared_breadth(alloc, &m.declared)?;
    let Some(own) = right.checked_add(1) else {
        return Err(AllocError);
    };
    let Some(end) = own.checked_add(count) else {
        return Err(AllocError);
    };
    Ok(end)
}

impl Inference<'_> {
    /// A declared type with synonyms expanded and its variables numbered.
    fn declared_by(&self, declared: &Option<TypeTerm>) -> Result<Option<SharedType>, AllocError>
        requires { IsInference self.now }
        ensures { IfOk result (λ made. made ≡ option_map
            (λ t. numbered (expanded self.now.program.now t)) (option_map type_of declared.now)) }
    {
        match declared {
            Some(term) => {
                let shared = expanded(self.alloc, self.synonyms, term)?;
                let opened = shared.open();
                let own = numbered(self.alloc, opened.types, opened.place)?;
                Ok(Some(own))
            }
            None => Ok(None),
        }
    }

    /// A function of the group as its member, whose type variables begin with
    /// this number.
    fn member(&self, f: FunId, first: u32) -> Result<Member, AllocError>
        requires { IsInference self.now }
        ensures { IfOk result (λ m. m ≡ plain_member (asked.member self.now.program.now first f)) }
    {
        let arity = arity_of(self.program, f);
        match self.program.marks().get(f.0) {
            Some(mark) => {
                let declared = self.declared_by(&mark.declared)?;
                Ok(Member {
                    arity,
                    captured: mark.captured,
                    declared,
                    first,
                })
            }
            None => Ok(Member {
                arity,
                captured: 0,
                declared: None,
                first,
            }),
        }
    }

    /// Makes the functions of a group its members. Gives the first type
    /// variable after theirs.
    fn enter(&self, known: &mut [Known], group: &[FunId]) -> Result<u32, AllocError>
        requires tables { IsInference self.now }
        requires within { AreWithin group.now (length known.old) }
        ensures known { OnOk result (known.new
            ≡ entered self.now.program.now 0 group.now known.old) }
        ensures next { IfOk result (λ next. next ≡ end_from self.now.program.now 0 group.now) }
    {
        let mut next = 0;
        for f in group {
            let m = self.member(*f, next)?;
            next = end_of(self.alloc, &m)?;
            known[f.0] = Known::Member(m);
        }
        Ok(next)
    }

    /// The equations of a group.
    fn ask(&self, known: &[Known], group: &[FunId], next: u32) -> Result<Asking, AllocError>
        ensures reader { IfOk result (λ asking. IsReader asking.reader) }
        ensures asks { IfOk result (λ asking. IsAsking asking (group_asks self.now.program.now
            (known_assumptions self.now.program.now self.now.constructors.now known.now
            self.now.values) (λ x. 0) known.now group.now
            (record { next = next; equations = [] }))) }
    {
        let mut walk = Walk {
            alloc: self.alloc,
            signing: Signing {
                program: self.program,
                constructors: self.constructors,
                known,
                values: self.values,
            },
            variables: Variables::new(self.alloc),
            asking: Asking::new(self.alloc, next),
        };
        walk.members(group)?;
        Ok(walk.asking)
    }

    /// Gives a function of the group the type that a solution has for it.
    fn leave_function(
        &self,
        known: &mut [Known],
        f: FunId,
        subst: &mut Subst,
    ) -> Result<(), AllocError>
        requires table { IsTable (types_of_subst subst.old) }
        requires places { HasPlaces subst.old }
        ensures known { OnOk result (known.new
            ≡ left_with (subst_of subst.old) f (numbers_of (slice_get known.old f.0)) known.old) }
        ensures stays { OnOk result (Stays subst.old subst.new) }
    {
        let Some(own) = numbers_at(known, f) else {
            return Ok(());
        };
        let place = subst.function_type(self.alloc, own.first, own.arity)?;
        let shared = numbered(self.alloc, subst.types(), place)?;
        known[f.0] = Known::Typed(shared);
        Ok(())
    }

    /// Gives the functions of a group the types that a solution has for them.
    fn leave(
        &self,
        known: &mut [Known],
        group: &[FunId],
        subst: &mut Subst,
    ) -> Result<(), AllocError>
        requires table { IsTable (types_of_subst subst.old) }
        requires places { HasPlaces subst.old }
        ensures { OnOk result (known.new ≡ left (subst_of subst.old) group.now known.old) }
    {
        for f in group {
            self.leave_function(known, *f, subst)?;
        }
        Ok(())
    }

    /// Gives the functions of a group the types that a solution has for them,
    /// where it keeps to the declared types.
    fn settle(
        &self,
        known: &mut [Known],
        group: &[FunId],
        subst: Subst,
    ) -> Result<Outcome, AllocError>
        requires table { IsTable (types_of_subst subst) }
        requires places { HasPlaces subst }
        ensures { IfOk result (λ outcome. (kernel : Kernel)
            → AreMembers kernel known.old group.now (members kernel group.now)
            → Settled (members kernel group.now) (subst_of subst) group.now known.old known.new
            outcome) }
    {
        let kept = keeps(self.alloc, known, group, &subst)?;
        let mut solution = subst;
        if !kept {
            return Ok(Outcome::Broken);
        }
        self.leave(known, group, &mut solution)?;
        Ok(Outcome::Typed)
    }

    /// Gives the functions of a group their types, where its equations have a
    /// solution that keeps to the declared types.
    pub(crate) fn infer_group(
        &self,
        known: &mut [Known],
        group: &[FunId],
    ) -> Result<Outcome, AllocError>
        requires tables { IsInference self.now }
        requires within { AreWithin group.now (length known.old) }
        ensures { IfOk result (λ outcome. HasNoMembers known.old
            → IsTrue (are_rising (numbers group.now))
            → Outcomes self.now.program.now known.old known.new group.now outcome) }
    {
        let next = self.enter(known, group)?;
        let asking = self.ask(known, group, next)?;
        let Asking { reader, pairs, .. } = asking;
        let outcome = solved(self.alloc, reader, pairs)?;
        match outcome {
            Ok(subst) => self.settle(known, group, subst),
            Err(clash) => Ok(Outcome::Clash(clash)),
        }
    }
}
