// The parameters of a query string.
ghost use Rattle.std.specs.Prelude.{◌≡◌, IfOk, option_map};
ghost use Rattle.query_parameters.specs.Parameters.{pairs_of, parameters_of, value_of};

use form_urlencoded::parse;
use std::alloc::{AllocError, Global};

/// The name and the value of a parameter, decoded.
#[derive(Debug, Drop)]
pub struct Parameter {
    pub name: String,
    pub value: String,
}

/// The parameters of a query string in their order, decoded as a form is (WHATWG URL, section 5.1).
pub fn read_parameters(alloc: Global, query: &[u8]) -> Result<Vec<Parameter>, AllocError>
    ensures { IfOk result (λ parameters. pairs_of parameters.items ≡ parameters_of query.now) }
{
    let mut parameters = Vec::new(alloc);
    for pair in parse(alloc, query) {
        let (name, value) = pair?;
        parameters.push(Parameter {
            name: name.into_owned(alloc)?,
            value: value.into_owned(alloc)?,
        })?;
    }
    Ok(parameters)
}

/// The value of the first parameter with this name.
pub fn first_value<'p>(parameters: &'p [Parameter], name: &str) -> Option<&'p str>
    ensures { option_map (λ value. value.now) result ≡ value_of (pairs_of parameters.now) name.now }
{
    for parameter in parameters {
        if name == parameter.name.as_str() {
            return Some(parameter.value.as_str());
        }
    }
    None
}
