//! Views as lines of words and columns.
use cu_int::Int;
use cu_names::Place;
use cu_syntax::{
    Alternative, Body, CaseWord, ConstructorDeclaration, ConstructorItem, Constructors,
    Declaration, DeclarationNode, Entity, Enumeration, Export, Expression, ExpressionNode, Guard,
    Header, Import, ImportList, ItemNode, Items, Literal, ModuleName, Name, OperatorItem, PatItems,
    Pattern, PatternNode, Qualifier, RightSide, RightSideNode, Side, TypeNode, TypeTerm,
};
use std::alloc::Global;

/// What a view says: its form, and the columns of its place, its names and its
/// parts, in the order in which the view has them.
#[derive(Drop)]
pub(crate) struct Told {
    alloc: Global,
    line: String,
}

/// What has columns to tell.
pub(crate) trait Tell {
    fn tell(&self, told: Told) -> Told;
}

impl Told {
    pub(crate) fn new(alloc: Global) -> Told {
        Told {
            alloc,
            line: String::new(alloc),
        }
    }

    pub(crate) fn line(&self) -> &str {
        self.line.as_str()
    }

    /// Without memory nothing is left of the line.
    pub(crate) fn word(mut self, word: &str) -> Told {
        if self.line.push_str(word).is_err() {
            self.line.clear();
        }
        self
    }

    fn number(self, number: Int) -> Told {
        match format!(in self.alloc; " {number}") {
            Ok(digits) => self.word(digits.as_str()),
            Err(_) => self,
        }
    }

    fn count(self, count: usize) -> Told {
        match format!(in self.alloc; " {count}") {
            Ok(digits) => self.word(digits.as_str()),
            Err(_) => self,
        }
    }

    pub(crate) fn and<T: Tell>(self, part: &T) -> Told {
        part.tell(self)
    }

    pub(crate) fn all<T: Tell>(self, parts: &[T]) -> Told {
        let mut told = self;
        for part in parts {
            told = part.tell(told);
        }
        told
    }

    /// A word and what is told after it, if it is there.
    fn maybe<T: Tell>(self, word: &str, part: &Option<T>) -> Told {
        match part {
            Some(part) => part.tell(self.word(word)),
            None => self,
        }
    }
}

impl Tell for Place {
    fn tell(&self, told: Told) -> Told {
        told.number(Int::from(self.column))
    }
}

impl Tell for Name {
    fn tell(&self, told: Told) -> Told {
        told.and(&self.place)
    }
}

impl Tell for ModuleName {
    fn tell(&self, told: Told) -> Told {
        told.and(&self.place)
    }
}

impl<'t> Tell for TypeTerm<'t> {
    fn tell(&self, told: Told) -> Told {
        told.and(&self.place())
    }
}

impl<'t> Tell for Pattern<'t> {
    fn tell(&self, told: Told) -> Told {
        told.and(&self.place())
    }
}

impl<'t> Tell for Expression<'t> {
    fn tell(&self, told: Told) -> Told {
        told.and(&self.place())
    }
}

impl<'t> Tell for Declaration<'t> {
    fn tell(&self, told: Told) -> Told {
        told.and(&self.place())
    }
}

impl<'t> Tell for TypeNode<'t> {
    fn tell(&self, told: Told) -> Told {
        match self {
            TypeNode::Variable(name) => told.word("variable").and(name),
            TypeNode::Named(name, arguments) => {
                told.word("named").and(name).all(arguments.as_slice())
            }
            TypeNode::Function(first, further, result) => told
                .word("function")
                .and(first)
                .all(further.as_slice())
                .word(" to")
                .and(result),
            TypeNode::Tuple(place, components) => {
                told.word("tuple").and(place).all(components.as_slice())
            }
            TypeNode::List(place, element) => told.word("list").and(place).and(element),
        }
    }
}

/// The value of a number, the code of a character, the length of a string.
impl<'t> Tell for Literal<'t> {
    fn tell(&self, told: Told) -> Told {
        match self {
            Literal::Int(number) => told.word(" number").number(*number),
            Literal::Char(character) => told
                .word(" character")
                .number(Int::from(*character as u32)),
            Literal::String(characters) => told.word(" string").count(characters.len()),
        }
    }
}

impl<'t> Tell for PatternNode<'t> {
    fn tell(&self, told: Told) -> Told {
        match self {
            PatternNode::Variable(name) => told.word("variable").and(name),
            PatternNode::Alias(name, pattern) => told.word("alias").and(name).and(pattern),
            PatternNode::Wildcard(place) => told.word("wildcard").and(place),
            PatternNode::Literal(place, literal) => told.word("literal").and(place).and(literal),
            PatternNode::Negative(place, number) => {
                told.word("negative").and(place).number(*number)
            }
            PatternNode::Constructed(place, name, arguments) => told
                .word("constructed")
                .and(place)
                .and(name)
                .all(arguments.as_slice()),
            PatternNode::Tuple(place, components) => {
                told.word("tuple").and(place).all(components.as_slice())
            }
            PatternNode::List(place, elements) => {
                told.word("list").and(place).all(elements.as_slice())
            }
            PatternNode::Operators(items) => told.word("operators").and(items),
        }
    }
}

impl<'t> Tell for PatItems<'t> {
    fn tell(&self, told: Told) -> Told {
        told.and(&self.place)
            .and(&self.first)
            .all(self.rest.as_slice())
    }
}

impl<'t> Tell for ConstructorItem<'t> {
    fn tell(&self, told: Told) -> Told {
        told.and(&self.operator).and(&self.operand)
    }
}

impl<'t> Tell for ExpressionNode<'t> {
    fn tell(&self, told: Told) -> Told {
        match self {
            ExpressionNode::Variable(place, name) => told.word("variable").and(place).and(name),
            ExpressionNode::Constructor(place, name) => {
                told.word("constructor").and(place).and(name)
            }
            ExpressionNode::Literal(place, literal) => told.word("literal").and(place).and(literal),
            ExpressionNode::Application(place, function, arguments) => told
                .word("application")
                .and(place)
                .and(function)
                .all(arguments.as_slice()),
            ExpressionNode::Operators(items) => told.word("operators").and(items),
            ExpressionNode::Lambda(place, parameters, body) => told
                .word("lambda")
                .and(place)
                .all(parameters.as_slice())
                .word(" to")
                .and(body),
            ExpressionNode::Let(place, declarations, body) => told
                .word("let")
                .and(place)
                .all(declarations.as_slice())
                .word(" in")
                .and(body),
            _ => told_choice(told, self),
        }
    }
}

/// Conditions and case distinctions.
fn told_choice(told: Told, node: &ExpressionNode<'_>) -> Told {
    match node {
        ExpressionNode::If(place, condition, chosen, other) => told
            .word("if")
            .and(place)
            .and(condition)
            .and(chosen)
            .and(other),
        ExpressionNode::Case(place, word, subject, alternatives) => told
            .and(word)
            .and(place)
            .and(subject)
            .all(alternatives.as_slice()),
        _ => told_brackets(told, node),
    }
}

/// What stands in parentheses or brackets.
fn told_brackets(told: Told, node: &ExpressionNode<'_>) -> Told {
    match node {
        ExpressionNode::Tuple(place, components) => {
            told.word("tuple").and(place).all(components.as_slice())
        }
        ExpressionNode::TupleConstructor(place, count) => {
            told.word("constructor of").count(*count).and(place)
        }
        ExpressionNode::LeftSection(place, operand, operator) => told
            .word("left section")
            .and(place)
            .and(operand)
            .and(operator),
        ExpressionNode::RightSection(place, operator, operand) => told
            .word("right section")
            .and(place)
            .and(operator)
            .and(operand),
        ExpressionNode::List(place, elements) => {
            told.word("list").and(place).all(elements.as_slice())
        }
        ExpressionNode::Enumeration(place, enumeration) => {
            told.word("enumeration").and(place).and(enumeration)
        }
        ExpressionNode::Comprehension(place, element, qualifiers) => told
            .word("comprehension")
            .and(place)
            .and(element)
            .all(qualifiers.as_slice()),
        _ => told.word("another form"),
    }
}

impl<'t> Tell for Items<'t> {
    fn tell(&self, told: Told) -> Told {
        told.and(&self.place)
            .maybe(" minus", &self.minus)
            .and(&self.first)
            .all(self.rest.as_slice())
    }
}

impl<'t> Tell for OperatorItem<'t> {
    fn tell(&self, told: Told) -> Told {
        told.and(&self.operator)
            .maybe(" minus", &self.minus)
            .and(&self.operand)
    }
}

impl Tell for CaseWord {
    fn tell(&self, told: Told) -> Told {
        match self {
            CaseWord::Case => told.word("case"),
            CaseWord::Fcase => told.word("fcase"),
        }
    }
}

impl<'t> Tell for Alternative<'t> {
    fn tell(&self, told: Told) -> Told {
        told.word(";").and(&self.pattern).and(&self.right)
    }
}

impl<'t> Tell for Enumeration<'t> {
    fn tell(&self, told: Told) -> Told {
        told.word(" from")
            .and(&self.first)
            .maybe(" then", &self.second)
            .maybe(" to", &self.last)
    }
}

impl<'t> Tell for Qualifier<'t> {
    fn tell(&self, told: Told) -> Told {
        match self {
            Qualifier::Generator(place, pattern, list) => told
                .word("; generator")
                .and(place)
                .and(pattern)
                .and(list),
            Qualifier::Declarations(place, declarations) => {
                told.word("; let").and(place).all(declarations.as_slice())
            }
            Qualifier::Condition(place, condition) => {
                told.word("; condition").and(place).and(condition)
            }
        }
    }
}

impl<'t> Tell for DeclarationNode<'t> {
    fn tell(&self, told: Told) -> Told {
        match self {
            DeclarationNode::FreeVariables(place, names) => {
                told.word("free").and(place).all(names.as_slice())
            }
            DeclarationNode::Signature(place, names, term) => told
                .word("signature")
                .and(place)
                .all(names.as_slice())
                .word(" of")
                .and(term),
            DeclarationNode::FunctionRule(place, name, parameters, right) => told
                .word("rule")
                .and(place)
                .and(name)
                .all(parameters.as_slice())
                .and(right),
            DeclarationNode::PatternBinding(place, pattern, right) => told
                .word("binding")
                .and(place)
                .and(pattern)
                .and(right),
        }
    }
}

/// A right-hand side is told with what it is.
impl<'t> Tell for RightSide<'t> {
    fn tell(&self, told: Told) -> Told {
        match self.node(told.alloc) {
            Ok(node) => told.and(&node),
            Err(_) => told,
        }
    }
}

impl<'t> Tell for RightSideNode<'t> {
    fn tell(&self, told: Told) -> Told {
        told.word(" right")
            .and(&self.place)
            .and(&self.body)
            .word(" local")
            .all(self.local.as_slice())
    }
}

impl<'t> Tell for Body<'t> {
    fn tell(&self, told: Told) -> Told {
        match self {
            Body::Plain(expression) => told.word(" is").and(expression),
            Body::Guarded(guards) => told.all(guards.as_slice()),
        }
    }
}

impl<'t> Tell for Guard<'t> {
    fn tell(&self, told: Told) -> Told {
        told.word(" guard")
            .and(&self.place)
            .and(&self.condition)
            .and(&self.expression)
    }
}

impl<'t> Tell for ItemNode<'t> {
    fn tell(&self, told: Told) -> Told {
        match self {
            ItemNode::Import(import) => told.and(import),
            ItemNode::Fixity(place, side, level, operators) => told
                .word("fixity")
                .and(place)
                .and(side)
                .number(Int::from(*level))
                .word(" of")
                .all(operators.as_slice()),
            ItemNode::Data(place, name, parameters, constructors) => told
                .word("data")
                .and(place)
                .and(name)
                .all(parameters.as_slice())
                .all(constructors.as_slice()),
            ItemNode::Synonym(place, name, parameters, term) => told
                .word("synonym")
                .and(place)
                .and(name)
                .all(parameters.as_slice())
                .word(" is")
                .and(term),
            ItemNode::Declaration(declaration) => told.word("declaration").and(declaration),
        }
    }
}

impl Tell for Import {
    fn tell(&self, told: Told) -> Told {
        let word = if self.qualified {
            "qualified import"
        } else {
            "import"
        };
        told.word(word)
            .and(&self.place)
            .and(&self.name)
            .maybe(" as", &self.alias)
            .maybe("", &self.list)
    }
}

impl Tell for ImportList {
    fn tell(&self, told: Told) -> Told {
        let word = if self.hides { " hiding" } else { " only" };
        told.word(word).all(self.entities.as_slice())
    }
}

impl Tell for Entity {
    fn tell(&self, told: Told) -> Told {
        match self {
            Entity::Variable(place, name) => told.word(" variable").and(place).and(name),
            Entity::Type(place, name, constructors) => told
                .word(" type")
                .and(place)
                .and(name)
                .and(constructors),
        }
    }
}

impl Tell for Constructors {
    fn tell(&self, told: Told) -> Told {
        match self {
            Constructors::None => told,
            Constructors::All => told.word(" all"),
            Constructors::Only(names) => told.word(" with").all(names.as_slice()),
        }
    }
}

impl Tell for Export {
    fn tell(&self, told: Told) -> Told {
        match self {
            Export::Module(place, name) => told.word(" module").and(place).and(name),
            Export::Entity(entity) => told.and(entity),
        }
    }
}

impl Tell for Side {
    fn tell(&self, told: Told) -> Told {
        match self {
            Side::Left => told.word(" left"),
            Side::Right => told.word(" right"),
            Side::Neither => told.word(" neither"),
        }
    }
}

impl<'t> Tell for ConstructorDeclaration<'t> {
    fn tell(&self, told: Told) -> Told {
        told.word(";")
            .and(&self.place)
            .and(&self.name)
            .all(self.fields.as_slice())
    }
}

/// A header is told with its exports.
impl Tell for Header {
    fn tell(&self, told: Told) -> Told {
        let told = told.word("header").and(&self.place()).and(&self.name());
        match self.exports(told.alloc) {
            Ok(Some(exports)) => told.word(" exports").all(exports.as_slice()),
            _ => told,
        }
    }
}
