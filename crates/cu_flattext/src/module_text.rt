//! The writing of a module's lines.
ghost use Rattle.std.specs.Prelude.{◌≡◌, option_map, slice_get};
ghost use Rattle.cu_kernel.specs.KernelOf.{mark_meaning};

use crate::calls::push_numbers;
use crate::expressions::Expressions;
use crate::inferred::InferredType;
use crate::line::{Line, Work};
use crate::lines::{push_counted, push_external, push_operator, push_type_head};
use crate::page::Page;
use crate::type_task::{Scope, Variables};
use crate::types::Types;
use crate::wording::Wording;
use cu_flat::{ExprId, FlatBody, FunId, Head};
use cu_kernel::{Constructor, DataType, Mark, Operator, Program, Synonym};
use cu_names::NameId;
use std::alloc::{AllocError, Global};

/// The parts of a module's text that are left while it is written, as a stack.
#[derive(Drop)]
pub(crate) struct ModuleText<'p> {
    pub(crate) alloc: Global,
    pub(crate) wording: Wording<'p>,
    /// The index of the module among the program's modules.
    pub(crate) module: u32,
    pub(crate) lines: Vec<Line<'p>>,
}

impl<'p> ModuleText<'p> {
    ghost use Rattle.std.specs.Prelude.{◌≡◌, ◌++◌, IfOk, OnOk, map};
    ghost use Rattle.cu_calculus.specs.FlatProgram.{body_in};
    ghost use Rattle.cu_flat.specs.Meaning.{body_meaning};
    ghost use Rattle.cu_kernel.specs.KernelOf.{constructor_meaning, synonym_meaning, type_meaning};
    ghost use Rattle.cu_kernel.specs.TypesOf.{type_of};
    ghost use Rattle.cu_flattext.specs.Inside.LineTasks.{function_at, left_after, lines_left, lines_left_after, lines_left_with, rule_over, work_left};
    ghost use Rattle.cu_flattext.specs.Inside.Stands.{lowered_of};
    ghost use Rattle.cu_flattext.specs.Inside.Tasks.{Writes};
    ghost use Rattle.cu_flattext.specs.Naming.{comma_text, function_entity, separated};
    ghost use Rattle.cu_flattext.specs.Text.{on_a_line, rule_text};
    ghost use Rattle.cu_flattext.specs.TypeTexts.{as_written, constructor_text, data_type_text, expanded, synonym_text, type_text, type_variables};
    ghost use Rattle.cu_flattext.specs.declared.line.Line.TheVariants as line;

    /// Writes what a part begins with, pushes the parts that it leaves, and
    /// answers what is to be written before these.
    pub(crate) fn step(&mut self, part: Line<'p>, page: &mut Page) -> Result<Work<'p>, AllocError>
        ensures { IfOk result (λ work. Writes page.old.text.items
            (lines_left_with part.entry self.old)
            page.new.text.items (left_after work self.new)) }
    {
        match part {
            Line::Text(text) => {
                page.push_str(text)?;
                Ok(Work::Nothing)
            }
            Line::Imports(imports, follows) => {
                self.imports(imports, follows, page)?;
                Ok(Work::Nothing)
            }
            Line::DataTypes(types, follows) => {
                self.data_types(types, follows, page)?;
                Ok(Work::Nothing)
            }
            Line::Synonyms(synonyms, follows) => self.synonyms(synonyms, follows, page),
            Line::Constructors(constructors, arity, follows) => {
                self.constructors(constructors, arity, follows, page)
            }
            Line::Functions(k, follows) => self.functions(k, follows, page),
            Line::Body(f) => self.function_body(f, page),
            Line::Operators(operators, follows) => {
                self.operators(operators, follows, page)?;
                Ok(Work::Nothing)
            }
        }
    }

    /// Writes imported modules.
    #[tactic(auto, using(crate::proofs::ElementLemmas::element_steps))]
    fn imports(
        &mut self,
        imports: &'p [NameId],
        follows: bool,
        page: &mut Page,
    ) -> Result<(), AllocError>
        ensures { OnOk result (Writes page.old.text.items
            (lines_left_with (line.Imports imports.entry follows) self.old)
            page.new.text.items (lines_left self.new)) }
    {
        match imports {
            [] => Ok(()),
            [first, others @ ..] => {
                page.push_comma(follows)?;
                page.push_quoted(self.wording.text(*first))?;
                self.lines.push(Line::Imports(others, true))?;
                Ok(())
            }
        }
    }

    /// Writes operators.
    #[tactic(auto, using(crate::proofs::ElementLemmas::element_steps))]
    fn operators(
        &mut self,
        operators: &'p [Operator],
        follows: bool,
        page: &mut Page,
    ) -> Result<(), AllocError>
        ensures { OnOk result (Writes page.old.text.items
            (lines_left_with (line.Operators operators.entry follows) self.old)
            page.new.text.items (lines_left self.new)) }
    {
        match operators {
            [] => Ok(()),
            [first, others @ ..] => {
                page.push_comma(follows)?;
                page.push_str("\n")?;
                push_operator(page, &self.wording, self.module, *first)?;
                self.lines.push(Line::Operators(others, true))?;
                Ok(())
            }
        }
    }

    /// Writes data types, and the program's synonyms after them.
    #[tactic(auto, using(crate::proofs::ElementLemmas::element_steps))]
    fn data_types(
        &mut self,
        types: &'p [DataType],
        follows: bool,
        page: &mut Page,
    ) -> Result<(), AllocError>
        ensures { OnOk result (Writes page.old.text.items
            (lines_left_with (line.DataTypes types.entry follows) self.old)
            page.new.text.items (lines_left self.new)) }
    {
        match types {
            [] => {
                let synonyms = self.wording.kernel.synonyms();
                self.lines.push(Line::Synonyms(synonyms, follows))?;
                Ok(())
            }
            [first, others @ ..] => {
                if first.module == self.module {
                    self.lines.push(Line::DataTypes(others, true))?;
                    self.data_type(first, follows, page)
                } else {
                    self.lines.push(Line::DataTypes(others, follows))?;
                    Ok(())
                }
            }
        }
    }

    /// Writes a data type of the module.
    fn data_type(
        &mut self,
        t: &'p DataType,
        follows: bool,
        page: &mut Page,
    ) -> Result<(), AllocError>
        requires { t.now.module ≡ self.old.module }
        ensures { OnOk result (Writes page.old.text.items
            (lines_left_after (comma_text follows
            ++ on_a_line (data_type_text (lowered_of self.old.wording) (type_meaning t.now)))
            self.old)
            page.new.text.items (lines_left self.new)) }
    {
        page.push_comma(follows)?;
        let entity = self.wording.entity(t.module, t.name);
        push_type_head(page, "\nType ", entity, t.public, t.arity)?;
        page.push_str(" [")?;
        self.lines.push(Line::Text("]"))?;
        self.lines.push(Line::Constructors(t.constructors.as_slice(), t.arity, false))?;
        Ok(())
    }

    /// Writes constructors of a type with so many parameters.
    #[tactic(auto, using(crate::proofs::ElementLemmas::element_steps))]
    fn constructors(
        &mut self,
        constructors: &'p [Constructor],
        arity: u32,
        follows: bool,
        page: &mut Page,
    ) -> Result<Work<'p>, AllocError>
        ensures { IfOk result (λ work. Writes page.old.text.items
            (lines_left_with (line.Constructors constructors.entry arity follows) self.old)
            page.new.text.items (left_after work self.new)) }
    {
        match constructors {
            [] => Ok(Work::Nothing),
            [first, others @ ..] => {
                self.lines.push(Line::Constructors(others, arity, true))?;
                let work = self.constructor(first, arity, follows, page)?;
                Ok(work)
            }
        }
    }

    /// Writes a constructor of a type with so many parameters.
    fn constructor(
        &mut self,
        c: &'p Constructor,
        arity: u32,
        follows: bool,
        page: &mut Page,
    ) -> Result<Work<'p>, AllocError>
        ensures { IfOk result (λ work. Writes page.old.text.items
            (lines_left_after (comma_text follows
            ++ constructor_text (lowered_of self.old.wording) self.old.module arity
            (constructor_meaning c.now)) self.old)
            page.new.text.items (left_after work self.new)) }
    {
        page.push_comma(follows)?;
        let entity = self.wording.entity(self.module, c.name);
        push_counted(page, "Cons ", entity, c.fields.len() as u64, c.public)?;
        page.push_str(" [")?;
        self.lines.push(Line::Text("]"))?;
        let work = self.fields(c, arity)?;
        Ok(work)
    }

    /// The types of a constructor's arguments, in which synonyms are expanded.
    fn fields(&self, c: &'p Constructor, arity: u32) -> Result<Work<'p>, AllocError>
        ensures { IfOk result (λ work. work_left work ≡ separated
            (map (type_text (lowered_of self.now.wording) (expanded (lowered_of self.now.wording))
            (type_variables arity)) (map type_of c.now.fields.items))) }
    {
        let scope = Scope {
            variables: Variables::Parameters(arity),
            depth: self.wording.kernel.synonyms().len(),
        };
        let types = Types::all_declared(self.alloc, self.wording, scope, c.fields.as_slice())?;
        Ok(Work::Types(types))
    }

    /// Writes synonyms.
    #[tactic(auto, using(crate::proofs::ElementLemmas::element_steps))]
    fn synonyms(
        &mut self,
        synonyms: &'p [Synonym],
        follows: bool,
        page: &mut Page,
    ) -> Result<Work<'p>, AllocError>
        ensures { IfOk result (λ work. Writes page.old.text.items
            (lines_left_with (line.Synonyms synonyms.entry follows) self.old)
            page.new.text.items (left_after work self.new)) }
    {
        match synonyms {
            [] => Ok(Work::Nothing),
            [first, others @ ..] => {
                if first.module == self.module {
                    self.lines.push(Line::Synonyms(others, true))?;
                    let work = self.synonym(first, follows, page)?;
                    Ok(work)
                } else {
                    self.lines.push(Line::Synonyms(others, follows))?;
                    Ok(Work::Nothing)
                }
            }
        }
    }

    /// Writes a synonym.
    fn synonym(
        &mut self,
        s: &'p Synonym,
        follows: bool,
        page: &mut Page,
    ) -> Result<Work<'p>, AllocError>
        ensures { IfOk result (λ work. Writes page.old.text.items
            (lines_left_after (comma_text follows
            ++ on_a_line (synonym_text (lowered_of self.old.wording) (synonym_meaning s.now)))
            self.old)
            page.new.text.items (left_after work self.new)) }
    {
        page.push_comma(follows)?;
        let entity = self.wording.entity(s.module, s.name);
        push_type_head(page, "\nTypeSyn ", entity, s.public, s.arity)?;
        page.push_str(" (")?;
        self.lines.push(Line::Text(")"))?;
        let work = self.meaning(s)?;
        Ok(work)
    }

    /// The type that a synonym stands for, in which synonyms stand as they are
    /// written.
    fn meaning(&self, s: &'p Synonym) -> Result<Work<'p>, AllocError>
        ensures { IfOk result (λ work. work_left work
            ≡ type_text (lowered_of self.now.wording) (as_written (lowered_of self.now.wording))
            (type_variables s.now.arity) (type_of s.now.body)) }
    {
        let scope = Scope {
            variables: Variables::Parameters(s.arity),
            depth: 0,
        };
        let types = Types::declared(self.alloc, self.wording, scope, &s.body)?;
        Ok(Work::Types(types))
    }

    /// Writes those functions from an index on that are the module's.
    fn functions(
        &mut self,
        k: usize,
        follows: bool,
        page: &mut Page,
    ) -> Result<Work<'p>, AllocError>
        ensures { IfOk result (λ work. Writes page.old.text.items
            (lines_left_with (line.Functions k follows) self.old)
            page.new.text.items (left_after work self.new)) }
    {
        if k >= self.wording.flat.function_count() {
            return Ok(Work::Nothing);
        }
        let Some(mark) = mark_at(self.wording.kernel, k) else {
            return Ok(Work::Nothing);
        };
        let next = k.checked_add(1).ok_or(AllocError)?;
        if mark.module == self.module {
            self.lines.push(Line::Functions(next, true))?;
            let work = self.function(FunId(k), mark.public, follows, page)?;
            Ok(work)
        } else {
            self.lines.push(Line::Functions(next, follows))?;
            Ok(Work::Nothing)
        }
    }

    /// Writes a function.
    fn function(
        &mut self,
        f: FunId,
        public: bool,
        follows: bool,
        page: &mut Page,
    ) -> Result<Work<'p>, AllocError>
        ensures { IfOk result (λ work. Writes page.old.text.items
            (lines_left_after (comma_text follows
            ++ on_a_line (function_at (lowered_of self.old.wording) f public)) self.old)
            page.new.text.items (left_after work self.new)) }
    {
        page.push_comma(follows)?;
        let arity = self.wording.arity(Head::Fun(f)) as u64;
        push_counted(page, "\nFunc ", self.wording.function(f), arity, public)?;
        page.push_str(" (")?;
        self.lines.push(Line::Text(")"))?;
        self.lines.push(Line::Body(f))?;
        self.lines.push(Line::Text(") ("))?;
        let inferred = InferredType::of_function(self.alloc, self.wording, f)?;
        Ok(Work::Inferred(inferred))
    }

    /// Writes the rule of a function; nothing where there is no such function.
    fn function_body(&mut self, f: FunId, page: &mut Page) -> Result<Work<'p>, AllocError>
        ensures { IfOk result (λ work. Writes page.old.text.items
            (lines_left_with (line.Body f) self.old)
            page.new.text.items (left_after work self.new)) }
    {
        match self.wording.flat.body(f) {
            Some(body) => self.body(f, body, page),
            None => Ok(Work::Nothing),
        }
    }

    /// Writes the rule of a function, or what stands for it where the function
    /// is built in.
    #[tactic(auto, using(cu_calculus::proofs::FlatFitting::any_variables))]
    fn body(
        &mut self,
        f: FunId,
        body: &'p FlatBody,
        page: &mut Page,
    ) -> Result<Work<'p>, AllocError>
        ensures { IfOk result (λ work. Writes page.old.text.items
            (lines_left_after (rule_text (lowered_of self.old.wording)
            (function_entity (lowered_of self.old.wording) f)
            (body_in self.old.wording.flat.now (body_meaning body.now))) self.old)
            page.new.text.items (left_after work self.new)) }
    {
        match body {
            FlatBody::Rule(parameters, e) => self.rule(parameters.as_slice(), *e, page),
            FlatBody::External(_) => {
                push_external(page, self.wording.function(f))?;
                Ok(Work::Nothing)
            }
        }
    }

    /// Writes a rule.
    fn rule(
        &mut self,
        parameters: &[u32],
        e: ExprId,
        page: &mut Page,
    ) -> Result<Work<'p>, AllocError>
        ensures { IfOk result (λ work. Writes page.old.text.items
            (lines_left_after (rule_over (lowered_of self.old.wording) self.old.wording.flat.now
            parameters.now e) self.old)
            page.new.text.items (left_after work self.new)) }
    {
        page.push_str("Rule ")?;
        push_numbers(page, 1, parameters.len() as u64)?;
        page.push_str(" (")?;
        self.lines.push(Line::Text(")"))?;
        let expressions = Expressions::of_rule(self.alloc, self.wording, parameters, e)?;
        Ok(Work::Expressions(expressions))
    }
}

/// The mark of the function with a number.
fn mark_at(kernel: &Program, k: usize) -> Option<&Mark>
    ensures { option_map (λ mark. mark_meaning mark.now) result ≡ slice_get kernel.now.marks k }
{
    kernel.marks().get(k)
}
