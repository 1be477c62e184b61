// The scope that translation carries down: the variables bound so far, in the order in which their rows stand side by side.
ghost use Rattle.std.specs.Prelude.{◌≡◌, ◌+◌, ◌≤◌, ◌<◌};
ghost use Rattle.relations.specs.Limits.{column_limit, variable_count};
ghost use Rattle.calculus.specs.Scope.{columns_in, width_in, column_number};
ghost use Rattle.conditions.specs.Scopes.{no_variables, scope_of, ScopeFits, Extended};

use relations::limits::COLUMNS;
use terms::attribute::Attribute;

// A variable with the width of its rows, a byte each: a scope stands in every frame of a quantifier.
#[derive(Clone, Copy)]
pub struct Entry {
    pub variable: u8,
    pub width: u8,
}

// The variables bound so far, how many they are, and the sum of their widths. `ScopeFits` is a clause and no ghost field: `with_variable` and `Extended`
// (specs/Scopes) speak of any scope, byte by byte.
#[derive(Clone, Copy)]
pub struct Scope {
    pub entries: [Entry; COLUMNS],
    pub count: u8,
    pub columns: u8,
}

impl Scope {
    pub fn new() -> Scope
        ensures { result ≡ no_variables }
    {
        let none = Entry {
            variable: 0,
            width: 0,
        };
        Scope {
            entries: [none; COLUMNS],
            count: 0,
            columns: 0,
        }
    }

    pub fn extend(&mut self, variable: u32, width: u32)
        requires { (variable < variable_count) × ScopeFits self.old × (1 ≤ width) × (columns_in (scope_of self.old) + width ≤ column_limit) }
        ensures { Extended self.old variable width self.new }
    {
        self.entries[self.count as usize] = Entry {
            variable: variable as u8,
            width: width as u8,
        };
        self.count += 1;
        self.columns += width as u8;
    }

    pub fn columns_in(&self) -> u32
        requires { ScopeFits self.now }
        ensures { result ≡ columns_in (scope_of self.now) }
    {
        u32::from(self.columns)
    }

    // The width of a variable's rows; 0 if it is not in scope.
    pub fn width_in(&self, variable: u32) -> u32
        requires { ScopeFits self.now }
        ensures { result ≡ width_in (scope_of self.now) variable }
    {
        for entry in &self.entries[..self.count as usize] {
            if u32::from(entry.variable) == variable {
                return u32::from(entry.width);
            }
        }
        0
    }

    // Where the n-th column of a variable stands, both counted from 1.
    pub fn column_number(&self, variable: u32, n: u32) -> u32
        requires { ScopeFits self.now × (n ≤ column_limit) }
        ensures { result ≡ column_number (scope_of self.now) variable n }
    {
        let mut passed = 0;
        for entry in &self.entries[..self.count as usize] {
            if u32::from(entry.variable) == variable {
                return passed + n;
            }
            passed += u32::from(entry.width);
        }
        passed
    }

    pub fn column_of(&self, variable: u32, attribute: Attribute) -> Attribute
        requires { ScopeFits self.now × (attribute.0 ≤ column_limit) }
        ensures { result.0 ≡ column_number (scope_of self.now) variable attribute.0 }
    {
        Attribute(self.column_number(variable, attribute.0))
    }
}
