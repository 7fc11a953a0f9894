//! Normal trees that are drawn one after another. Each kind of node that a normal tree may have
//! comes up among them; every name and word is normal in all languages.
use base_decimal::Decimal;
use base_shared::Shared;
use base_tables::{Error, Function, Locale};
use base_values::{Items, Position, Text};
use formula_tree::{
    ArrayItem, CompareKind, Corner, Node, Parameter, ProductKind, SumKind, UnaryKind, order_corners,
};
use std::alloc::{AllocError, Global};

/// The cell that the trees stand in: T20.
pub(super) const PLACE: Position = Position {
    row: 20,
    column: 20,
};

const COMPARISONS: [CompareKind; 6] = [
    CompareKind::Equal,
    CompareKind::NotEqual,
    CompareKind::Less,
    CompareKind::LessOrEqual,
    CompareKind::Greater,
    CompareKind::GreaterOrEqual,
];

const NUMBERS: [&str; 9] = [
    "0",
    "7",
    "10",
    "0.5",
    "1.05",
    "1048576",
    "0.000000000000001",
    "999999999999999",
    "123456789012345.123456789012345",
];

const NEGATIVE_NUMBERS: [&str; 3] = ["-1", "-0.5", "-999999999999999.999999999999999"];

const TEXTS: [&str; 9] = [
    "",
    "a",
    "a\"b",
    "\"\"",
    "gr\u{f6}\u{df}e \u{65e5}\u{672c}",
    "'",
    "=1+(",
    "{1;2",
    "two\nlines",
];

/// Some need quotes: those that are no word, or that read as a cell in letters or by numbers.
const SHEETS: [&str; 12] = [
    "Sheet1",
    "Blatt.2",
    "\u{dc}bersicht",
    "TRUE",
    "My sheet",
    "It's",
    "A1",
    "R1C1",
    "1st",
    "a!b",
    "'",
    " ",
];

/// Words that read neither as a cell nor as a boolean. `XFE1` and `A1048577` lie outside the sheet.
const NAMES: [&str; 11] = [
    "x",
    "Total",
    "gr\u{f6}\u{df}e",
    "_low",
    "tax.rate",
    "r",
    "R1C1",
    "XFE1",
    "A1048577",
    "SUM",
    "lambda",
];

/// Words without capitals from A to Z that are no functions.
const CALLED_NAMES: [&str; 7] = [
    "f",
    "tax.rate",
    "_low",
    "a1",
    "r1c1",
    "gr\u{f6}\u{df}e",
    "\u{dc}ber",
];

const PARAMETERS: [&str; 7] = [
    "x",
    "y",
    "Total",
    "gr\u{f6}\u{df}e",
    "true",
    "SUM",
    "lambda",
];

const ROWS: [i32; 6] = [1, 2, 20, 21, 1_048_575, 1_048_576];

const COLUMNS: [i32; 7] = [1, 2, 20, 27, 703, 16_383, 16_384];

/// The number of a line that is seen from another.
fn line_number(absolute: bool, from: i32, line: i32) -> i32 {
    if absolute {
        line
    } else {
        line.wrapping_sub(from)
    }
}

/// The corner with the row of an absolute line.
fn on_row(row: i32, corner: Corner) -> Corner {
    Corner {
        absolute_row: true,
        row,
        absolute_column: corner.absolute_column,
        column: corner.column,
    }
}

fn on_column(column: i32, corner: Corner) -> Corner {
    Corner {
        absolute_row: corner.absolute_row,
        row: corner.row,
        absolute_column: true,
        column,
    }
}

fn decimal(text: &str) -> Decimal {
    let (mantissa, places) = (0, 0);
    Decimal::read(text, Locale::En).unwrap_or(Decimal { mantissa, places })
}

fn is_sum(node: &Node) -> bool {
    matches!(node, Node::Sum(_, _, _))
}

fn is_callee(node: &Node) -> bool {
    matches!(node, Node::Lambda(_, _) | Node::LambdaCall(_, _))
}

/// What draws the trees.
#[derive(Drop)]
pub(super) struct Drawer {
    alloc: Global,
    state: u64,
    /// Trees that no other has taken as a part.
    trees: Vec<Node>,
}

impl Drawer {
    pub(super) fn new(alloc: Global, seed: u64) -> Drawer {
        Drawer {
            alloc,
            state: seed,
            trees: Vec::new(alloc),
        }
    }

    fn number(&mut self) -> usize {
        self.state = self
            .state
            .wrapping_mul(6364136223846793005)
            .wrapping_add(1442695040888963407);
        (self.state >> 33) as usize
    }

    fn flag(&mut self) -> bool {
        self.number() % 2 == 0
    }

    fn pick<T: Copy>(&mut self, choices: &[T]) -> Option<T> {
        let number = self.number();
        let count = choices.len();
        if count == 0 {
            return None;
        }
        choices.get(number % count).copied()
    }

    fn word(&mut self, words: &[&'static str]) -> Result<Text, AllocError> {
        let word = self.pick(words).unwrap_or("x");
        Ok(Text::new(String::from_str(self.alloc, word)?))
    }

    fn corner(&mut self) -> Corner {
        let (absolute_row, absolute_column) = (self.flag(), self.flag());
        let row = self.pick(&ROWS).unwrap_or(1);
        let column = self.pick(&COLUMNS).unwrap_or(1);
        Corner {
            absolute_row,
            row: line_number(absolute_row, PLACE.row, row),
            absolute_column,
            column: line_number(absolute_column, PLACE.column, column),
        }
    }

    fn sheet(&mut self) -> Result<Option<Shared<Text>>, AllocError> {
        if self.flag() {
            return Ok(None);
        }
        let name = self.word(&SHEETS)?;
        Ok(Some(Shared::new(self.alloc, name)?))
    }

    fn range(&mut self, first: Corner, second: Corner) -> Result<Node, AllocError> {
        let (first, second) = order_corners(PLACE, first, second);
        Ok(Node::Range(self.sheet()?, first, second))
    }

    fn reference(&mut self) -> Result<Node, AllocError> {
        let corner = self.corner();
        Ok(Node::Reference(self.sheet()?, corner))
    }

    fn cells(&mut self) -> Result<Node, AllocError> {
        let (first, second) = (self.corner(), self.corner());
        self.range(first, second)
    }

    fn whole_rows(&mut self) -> Result<Node, AllocError> {
        let (first, second) = (self.corner(), self.corner());
        self.range(on_column(1, first), on_column(16_384, second))
    }

    fn whole_columns(&mut self) -> Result<Node, AllocError> {
        let (first, second) = (self.corner(), self.corner());
        self.range(on_row(1, first), on_row(1_048_576, second))
    }

    fn positive_number(&mut self) -> Decimal {
        decimal(self.pick(&NUMBERS).unwrap_or("0"))
    }

    fn any_number(&mut self) -> Decimal {
        if self.flag() {
            return self.positive_number();
        }
        decimal(self.pick(&NEGATIVE_NUMBERS).unwrap_or("0"))
    }

    fn error(&mut self) -> Error {
        self.pick(&Error::ALL).unwrap_or(Error::Ref)
    }

    fn constant(&mut self) -> Result<ArrayItem, AllocError> {
        match self.number() % 4 {
            0 => Ok(ArrayItem::Boolean(self.flag())),
            1 => Ok(ArrayItem::Number(self.any_number())),
            2 => Ok(ArrayItem::Text(self.word(&TEXTS)?)),
            _ => Ok(ArrayItem::Error(self.error())),
        }
    }

    fn constants(&mut self, count: usize) -> Result<Items<ArrayItem>, AllocError> {
        let mut line = Items::empty(self.alloc);
        for _ in 0..count {
            line.push(self.constant()?)?;
        }
        Ok(line)
    }

    /// One to three lines of one to three constants.
    fn array(&mut self) -> Result<Node, AllocError> {
        let count = self.number() % 3 + 1;
        let width = self.number() % 3 + 1;
        let mut lines = Items::empty(self.alloc);
        for _ in 0..count {
            lines.push(self.constants(width)?)?;
        }
        Ok(Node::Array(lines))
    }

    fn leaf(&mut self) -> Result<Node, AllocError> {
        match self.number() % 10 {
            0 => Ok(Node::Boolean(self.flag())),
            1 => Ok(Node::Number(self.positive_number())),
            2 => Ok(Node::Text(self.word(&TEXTS)?)),
            3 => self.reference(),
            4 => self.cells(),
            5 => self.whole_rows(),
            6 => self.whole_columns(),
            7 => self.array(),
            8 => Ok(Node::Name(self.word(&NAMES)?)),
            _ => Ok(Node::Error(self.error())),
        }
    }

    /// The last tree that is not yet a part, else a leaf.
    fn part(&mut self) -> Result<Node, AllocError> {
        match self.trees.pop() {
            Some(tree) => Ok(tree),
            None => self.leaf(),
        }
    }

    fn operand(&mut self) -> Result<Shared<Node>, AllocError> {
        let part = self.part()?;
        Shared::new(self.alloc, part)
    }

    fn operands(&mut self) -> Result<(Shared<Node>, Shared<Node>), AllocError> {
        let (first, second) = (self.operand()?, self.operand()?);
        if self.flag() {
            Ok((first, second))
        } else {
            Ok((second, first))
        }
    }

    /// No sum stands on the right of `+`.
    fn sum_kind(&mut self, right: &Node) -> SumKind {
        if self.flag() && !is_sum(right) {
            SumKind::Add
        } else {
            SumKind::Subtract
        }
    }

    fn product_kind(&mut self) -> ProductKind {
        if self.flag() {
            ProductKind::Multiply
        } else {
            ProductKind::Divide
        }
    }

    fn compare_kind(&mut self) -> CompareKind {
        self.pick(&COMPARISONS).unwrap_or(CompareKind::Equal)
    }

    fn infix(&mut self) -> Result<Node, AllocError> {
        let (left, right) = self.operands()?;
        match self.number() % 6 {
            0 => Ok(Node::Colon(left, right)),
            1 => Ok(Node::Concatenate(left, right)),
            2 => Ok(Node::Compare(self.compare_kind(), left, right)),
            3 => Ok(Node::Sum(self.sum_kind(right.get()), left, right)),
            4 => Ok(Node::Product(self.product_kind(), left, right)),
            _ => Ok(Node::Power(left, right)),
        }
    }

    /// An empty argument stands only beside others.
    fn argument(&mut self, has_others: bool) -> Result<Node, AllocError> {
        if has_others && self.number() % 3 == 0 {
            return Ok(Node::EmptyArgument);
        }
        self.part()
    }

    fn arguments(&mut self) -> Result<Items<Node>, AllocError> {
        let count = self.number() % 4;
        let mut arguments = Items::empty(self.alloc);
        for _ in 0..count {
            arguments.push(self.argument(count > 1)?)?;
        }
        Ok(arguments)
    }

    fn call(&mut self) -> Result<Node, AllocError> {
        let function = self.pick(&Function::ALL).unwrap_or(Function::Sum);
        Ok(Node::Call(function, self.arguments()?))
    }

    fn named_call(&mut self) -> Result<Node, AllocError> {
        let name = self.word(&CALLED_NAMES)?;
        Ok(Node::NamedCall(name, self.arguments()?))
    }

    fn parameter(&mut self) -> Result<Parameter, AllocError> {
        Ok(Parameter {
            name: self.word(&PARAMETERS)?,
            optional: self.flag(),
        })
    }

    fn lambda_of(&mut self, body: Shared<Node>) -> Result<Node, AllocError> {
        let count = self.number() % 3;
        let mut parameters = Items::empty(self.alloc);
        for _ in 0..count {
            parameters.push(self.parameter()?)?;
        }
        Ok(Node::Lambda(parameters, body))
    }

    fn lambda(&mut self) -> Result<Node, AllocError> {
        let body = self.operand()?;
        self.lambda_of(body)
    }

    /// A lambda, or a call of one.
    fn callee(&mut self) -> Result<Shared<Node>, AllocError> {
        let operand = self.operand()?;
        if is_callee(operand.get()) {
            return Ok(operand);
        }
        let lambda = self.lambda_of(operand)?;
        Shared::new(self.alloc, lambda)
    }

    fn lambda_call(&mut self) -> Result<Node, AllocError> {
        let callee = self.callee()?;
        Ok(Node::LambdaCall(callee, self.arguments()?))
    }

    /// A tree that takes some of the others as its parts.
    fn operation(&mut self) -> Result<Node, AllocError> {
        match self.number() % 14 {
            0 => Ok(Node::Unary(UnaryKind::Minus, self.operand()?)),
            1 => Ok(Node::Unary(UnaryKind::Percent, self.operand()?)),
            2 => Ok(Node::Spill(self.operand()?)),
            3 => Ok(Node::ImplicitIntersection(self.operand()?)),
            4 => self.call(),
            5 => self.named_call(),
            6 => self.lambda(),
            7 => self.lambda_call(),
            _ => self.infix(),
        }
    }

    fn step(&mut self) -> Result<Node, AllocError> {
        if self.number() % 3 == 0 {
            return self.leaf();
        }
        self.operation()
    }

    /// A tree in one to six steps. The last one is an operation.
    pub(super) fn tree(&mut self) -> Result<Node, AllocError> {
        let count = self.number() % 6;
        self.trees.clear();
        for _ in 0..count {
            let tree = self.step()?;
            self.trees.push(tree)?;
        }
        self.operation()
    }
}
