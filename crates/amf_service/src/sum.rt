ghost use Rattle.std.specs.Prelude.{◌≡◌, ◌≤◌, length, map, bytes_eq, IfOk};
ghost use Rattle.amf_graph.specs.Arena.{Arena, value_content};
ghost use Rattle.amf_graph.specs.Bounds.{weight};
ghost use Rattle.amf_service.specs.Meaning.{Answers, given, heaviest_arguments, heaviest_result};
ghost use Rattle.amf_graph.specs.Rooted.{content};
ghost use Rattle.amf_service.specs.Made.{totalled};
ghost use Rattle.amf_service.specs.Shipped.{items_of, sum_name, summed, summed_total, total_of};

use crate::number::{double_of, number_of};
use crate::{Service, ServiceEnd, fault, is_named, items};
use amf_graph::{Builder, Rooted, Value};
use amf_wire::Name;
use std::alloc::Global;

/// The operation `sum` gives the sum of its items, integers and doubles that are whole numbers below 2^53 in size, as a double.
/// Other arguments are the fault `wrong arguments`, and a sum of 2^53 or more in size is the fault `too large`.
#[derive(Drop)]
pub struct Sum;

/// The sum of the numbers, if all are such.
fn total(items: &[Value]) -> Option<i128>
    requires { length items.now ≤ heaviest_arguments }
    ensures { (a : Arena) → result ≡ total_of (map (value_content a) items.now) }
{
    let mut total: i128 = 0;
    for item in items {
        let number = number_of(*item)?;
        total += i128::from(number);
    }
    Some(total)
}

/// The sum of the items of the arguments, if these are an array of numbers without names.
fn total_in(args: &Rooted) -> Option<i128>
    requires { weight args.now.arena ≤ heaviest_arguments }
    ensures { result ≡ totalled (items_of (content args.now)) }
{
    total(items(args)?)
}

/// The answer with this sum.
fn summed(alloc: Global, total: i128) -> Result<Rooted, ServiceEnd>
    ensures answer { Answers (given (summed_total total)) result }
    ensures light { IfOk result (λ graph. weight graph.arena ≤ heaviest_result) }
{
    match double_of(total) {
        Some(sum) => Ok(Builder::new(alloc)?.whole(Value::Double(sum))),
        None => Err(fault(alloc, b"too large")),
    }
}

impl Service for Sum {
    ghost knows = { λ _. bytes_eq sum_name };

    ghost gives = { λ _ operation args. summed args };

    fn answers(
        &self,
        alloc: Global,
        operation: &Name,
        args: &Rooted,
    ) -> Result<Rooted, ServiceEnd> {
        if !is_named(operation, b"sum") {
            return Err(ServiceEnd::Unknown);
        }
        match total_in(args) {
            Some(total) => summed(alloc, total),
            None => Err(fault(alloc, b"wrong arguments")),
        }
    }

    fn is_lawful(&self) {}
}
