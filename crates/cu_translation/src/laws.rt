//! Laws of the definitions. These functions do nothing: their contracts are
//! the laws.
ghost use Rattle.std.specs.Prelude.{◌≡◌, ◌↔◌, List, [], ◌∷◌, None, Some, Contains, ◌<◌, ℕ, suc, false, length, map, true};
ghost use Rattle.cu_fixity.specs.declared.fixity.Fixity.{Fixity};
ghost use Rattle.cu_fixity.specs.Grouping.{Grouped, HasNoTree, Item, Tree};
ghost use Rattle.cu_lex.specs.Located.{Position};
ghost use Rattle.cu_translation.specs.Around.{Around, place_at};
ghost use Rattle.cu_translation.specs.Dependencies.{Captures, DependsOn, captures, is_recursive};
ghost use Rattle.cu_translation.specs.FaultOrder.{Arity, Fault, FixityClash, NonLinear, RecursiveLocal, SetName, fault, first_fault, is_before};
ghost use Rattle.cu_translation.specs.GroupedTree.{grouped_tree};
ghost use Rattle.cu_translation.specs.LocalFunctions.{local_functions};
ghost use Rattle.cu_translation.specs.LocalNames.{Binder};
ghost use Rattle.cu_translation.specs.Numbering.{all_functions};
ghost use Rattle.cu_translation.specs.Samples.{at, goal_outcome, modules, table, rule_fault, translated, translated_goal, translated_open};
ghost use Rattle.cu_translation.specs.Parts.{goal_part, module_part, special};
ghost use Rattle.cu_translation.specs.Sites.{Node};
ghost use Rattle.cu_kernel.specs.FirstTypes.{has_first_types};
ghost use Rattle.cu_kernel.specs.LocalKernel.{Follows};
ghost use Rattle.cu_kernel.specs.LocalValid.{captures_nothing};
ghost use Rattle.std.specs.List.{list_all};
ghost use Rattle.cu_modules.specs.BuiltInEntities.{prelude_name};
ghost use Rattle.cu_modules.specs.Scopes.{Named};
ghost use Rattle.cu_syntax.specs.Syntax.{Goal, Module};
ghost use Rattle.cu_translation.specs.Translation.{Translated, translation};
ghost use Rattle.cu_translation.specs.Worked as worked;
ghost use Rattle.cu_translation.specs.WorkedFaults as refusals;
ghost use Rattle.cu_translation.specs.WorkedFaults.{refused};
ghost use Rattle.cu_translation.specs.WorkedBlocks as more;
ghost use Rattle.cu_translation.specs.WorkedParts as parts;

/// Sample functions are translated as worked out by hand: with parameters, and
/// with guards.
pub fn functions_are_translated()
    ensures parameters { translated worked.first_of_two [] ≡ worked.first_of_two_term }
    ensures guards { translated worked.guard [] ≡ worked.guard_term }
{}

/// A block after guards is translated to be around them, in a sample worked out
/// by hand.
pub fn blocks_after_guards_are_translated()
    ensures { translated more.where_guard [] ≡ more.where_guard_term }
{}

/// Definitions stand after those on which they depend, also by way of
/// functions, in samples worked out by hand.
pub fn definitions_are_ordered()
    ensures captured { translated_goal more.captured ≡ more.captured_term }
    ensures by_function { translated_goal more.by_function ≡ more.by_function_term }
    ensures inside_itself { translated_goal more.inside_itself ≡ more.inside_itself_term }
    ensures through_lambda { goal_outcome more.through_lambda ≡ refused RecursiveLocal 7 }
    ensures through_pattern { goal_outcome more.through_pattern ≡ refused RecursiveLocal 11 }
{}

/// Sample applications are translated as worked out by hand: heads with as many
/// arguments as they take, heads with more, and other terms.
pub fn applications_are_translated()
    ensures more_arguments { translated_goal more.more_arguments ≡ more.more_arguments_term }
    ensures other_term { translated_goal more.other_term ≡ more.other_term_term }
    ensures pair { translated_goal more.pair ≡ more.pair_term }
    ensures set_operator { translated_goal more.set_operator ≡ worked.set_call_term }
{}

/// Samples with names in scope are translated as worked out by hand: patterns
/// of alternatives and qualifiers, functions inside functions, and the
/// variables of goals.
pub fn scopes_are_translated()
    ensures alternatives { translated_goal more.alternatives ≡ more.alternatives_term }
    ensures nested_lambda { translated_goal more.nested_lambda ≡ more.nested_lambda_term }
    ensures qualifiers { translated_goal more.qualifiers ≡ more.qualifiers_term }
    ensures open_goal { translated_open more.open_goal ≡ more.open_goal_term }
{}

/// Samples without local names are translated as worked out by hand.
pub fn closed_forms_are_translated()
    ensures conditional { translated_goal worked.conditional ≡ worked.conditional_term }
    ensures left_section { translated_goal worked.left_section ≡ worked.left_section_term }
    ensures right_section { translated_goal worked.right_section ≡ worked.right_section_term }
    ensures negative { translated_goal worked.negative ≡ worked.negative_term }
    ensures negated { translated_goal worked.negated ≡ worked.negated_term }
    ensures string { translated_goal worked.string ≡ worked.string_term }
    ensures set_call { translated_goal worked.set_call ≡ worked.set_call_term }
{}

/// Sample blocks are translated as worked out by hand: definitions stand in the
/// order of their dependencies, and the variables of a pattern are selected
/// from its whole value.
pub fn blocks_are_translated()
    ensures dependent { translated_goal worked.dependent ≡ worked.dependent_term }
    ensures binding { translated_goal worked.binding ≡ worked.binding_term }
    ensures unknowns { translated_goal worked.unknowns ≡ worked.unknowns_term }
    ensures closure { translated_goal worked.closure ≡ worked.closure_term }
{}

/// Sample lambda expressions, and comprehensions whose pattern may fail, are
/// translated as worked out by hand.
pub fn new_functions_are_translated()
    ensures lambda { translated_goal worked.lambda ≡ worked.lambda_term }
    ensures comprehension { translated_goal worked.comprehension ≡ worked.comprehension_term }
{}

/// Sample modules after others are translated as worked out by hand, with their
/// types, functions and marks.
pub fn modules_are_translated()
    ensures set_functions { translation table modules 1 ≡ Translated parts.set_functions_part }
    ensures own { translation table modules 2 ≡ Translated parts.own_part }
{}

/// Samples that are refused have the faults, at the places, that were worked
/// out by hand.
pub fn faults_are_told()
    ensures clash { goal_outcome refusals.chained ≡ refused FixityClash 1 }
    ensures recursive { goal_outcome refusals.recursive ≡ refused RecursiveLocal 7 }
    ensures nameless { goal_outcome refusals.nameless ≡ refused SetName 1 }
    ensures arity { rule_fault worked.first_of_two (worked.one_parameter ∷ [])
        ≡ Some (fault Arity worked.one_parameter.at) }
    ensures twice { rule_fault worked.twice [] ≡ Some (fault NonLinear (at 5)) }
    ensures constructor { rule_fault worked.too_few [] ≡ Some (fault Arity (at 4)) }
{}

/// `grouped_tree` finds the tree of items that is grouped, and finds none
/// exactly where a list of items has no grouped tree.
pub fn grouped_trees_are_found<A, O>()
    ensures found { (fixity : O → Fixity) (items : List (Item A O)) (tree : Tree A O)
        → Grouped fixity items tree ↔ (grouped_tree fixity items ≡ Some tree) }
    ensures none { (fixity : O → Fixity) (items : List (Item A O))
        → HasNoTree fixity items ↔ (grouped_tree fixity items ≡ None) }
{}

/// The local functions of a text are those that are numbered, in the order of
/// their numbers.
pub fn local_functions_are_numbered()
    ensures { (around : Around) (nodes : List Node)
        → map (λ f. f.place) (local_functions around nodes)
        ≡ map (place_at around.names) (all_functions nodes) }
{}

/// `captures` decides the least set of captured variables, and `is_recursive`
/// holds exactly where a variable depends on itself in one step or more.
pub fn captures_are_least()
    ensures captures { (nodes : List Node) (b : Binder) (f : Position)
        → (captures nodes f b ≡ true) ↔ Captures nodes b f }
    ensures recursive { (nodes : List Node) (x : Binder)
        → (is_recursive nodes x ≡ true) ↔ DependsOn nodes x x }
{}

/// The fault that is told is one of the faults, and none of them stands before
/// it; none is told where there is none.
pub fn the_first_fault_is_told()
    ensures listed { (found : List Fault) (told : Fault) → first_fault found ≡ Some told
        → Contains found told }
    ensures first { (found : List Fault) (told other : Fault) → first_fault found ≡ Some told
        → Contains found other → is_before other told ≡ false }
    ensures none { (found : List Fault) → first_fault found ≡ None → found ≡ [] }
{}

/// The numbers of the part of a module begin where those of the module before
/// it end, and those of a goal's where those of the last module do.
pub fn parts_follow()
    ensures modules { (table : List (List ℕ)) (modules : List Named) (k : ℕ) → k < length modules
        → Follows (module_part table modules k) (module_part table modules (suc k)) }
    ensures goal { (table : List (List ℕ)) (modules : List Named) (root k : ℕ) (goal : Goal)
        → length modules ≡ suc k
        → Follows (module_part table modules k) (goal_part table modules root goal) }
{}

/// Where the Prelude is the first module, its part begins with the types that
/// every program begins with, and its `[]` and `:` are the constructors of
/// lists among them.
pub fn first_types_stand_first()
    ensures { (table : List (List ℕ)) (text : Module) (others : List Named)
        → has_first_types (special (record { name = prelude_name; syntax = text } ∷ others))
        (module_part table (record { name = prelude_name; syntax = text } ∷ others) 0).types
        ≡ true }
{}

/// Each function of a module's part has its mark, which counts no captured
/// variables.
pub fn functions_are_marked()
    ensures marks { (table : List (List ℕ)) (modules : List Named) (k : ℕ)
        → length (module_part table modules k).marks
        ≡ length (module_part table modules k).functions }
    ensures uncaptured { (table : List (List ℕ)) (modules : List Named) (k : ℕ)
        → list_all captures_nothing (module_part table modules k).marks ≡ true }
{}
