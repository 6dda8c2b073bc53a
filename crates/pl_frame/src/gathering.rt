ghost use Rattle.std.specs.Prelude.{◌≡◌, ℕ, [], List as list, Some, None, IfOk, string_bytes};
ghost use Rattle.std.specs.HashMap.{get_by_text};
ghost use Rattle.pl_frame.specs.Placing.{place_of};
ghost use Rattle.pl_base.specs.Folding.{folded};
ghost use Rattle.pl_frame.specs.Variables.{placed};

use crate::frame::Variable;
use pl_base::{List, Memory, in_upper_case};
use std::alloc::Global;
use std::collections::HashMap;

/// Variables, of which no two have one name, the case of ASCII's letters aside, and where each name
/// in upper case stands.
#[derive(Drop)]
pub struct Gathered {
    pub variables: List<Variable>,
    places: HashMap<String, usize>,
    ghost indexed: { (upper : list ℕ) → get_by_text places upper ≡ place_of upper variables },
}

impl Gathered {
    /// No variables.
    pub fn new(alloc: Global) -> Gathered
        ensures { result.variables ≡ [] }
    {
        Gathered {
            variables: List::new(alloc),
            places: HashMap::new(alloc),
        }
    }

    /// The variables with a later one: in the place of the one of its name, or behind all.
    pub fn with(self, alloc: Global, later: Variable) -> Result<Gathered, Memory>
        ensures { IfOk result (λ more. more.variables ≡ placed self.variables later) }
    {
        let name = in_upper_case(alloc, &later.name)?;
        match place_in(&self.places, name.as_str()) {
            Some(at) => Ok(self.replaced(at, later)),
            None => self.extended(name, later),
        }
    }

    /// The variables with a later one in the place of the one of its name.
    fn replaced(self, at: usize, later: Variable) -> Gathered
        requires { place_of (folded later.name) self.variables ≡ Some at }
        ensures { result.variables ≡ placed self.variables later }
    {
        let Gathered {
            mut variables,
            places,
        } = self;
        variables.set(at, later);
        Gathered { variables, places }
    }

    /// The variables with one of a new name behind all.
    fn extended(self, name: String, later: Variable) -> Result<Gathered, Memory>
        requires upper { string_bytes name ≡ folded later.name }
        requires new { place_of (folded later.name) self.variables ≡ None }
        ensures { IfOk result (λ more. more.variables ≡ placed self.variables later) }
    {
        let Gathered {
            mut variables,
            mut places,
        } = self;
        places.insert(name, variables.len())?;
        variables.push(later)?;
        Ok(Gathered { variables, places })
    }

    /// The variables as a list.
    pub fn into_variables(self) -> List<Variable>
        ensures { result ≡ self.variables }
    {
        let Gathered {
            variables,
            places: _,
        } = self;
        variables
    }
}

/// The place of a name in upper case.
fn place_in(places: &HashMap<String, usize>, upper: &str) -> Option<usize>
    ensures { result ≡ get_by_text places.now upper.now }
{
    places.get(upper).copied()
}
