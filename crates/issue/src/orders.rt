//! Orders: what a line asks for.
use super::problems::Problem;
use std::alloc::Global;
use wording::{bytes, small_number};

#[derive(Drop)]
pub(crate) enum Order {
    Key(Vec<u8>),
    Pads(Vec<u8>),
    Seal(u8, Vec<u8>),
    Void,
}

impl Order {
    pub(crate) fn read(heap: Global, text: &str) -> Result<Order, Problem> {
        let mut words = text.split(' ');
        let name = words.next().unwrap_or("");
        let arguments: Vec<&str> = words.collect(heap)?;
        match (name, arguments.as_slice()) {
            ("key", [key]) => Ok(Order::Key(bytes(heap, key)?)),
            ("pads", [pads]) => Ok(Order::Pads(bytes(heap, pads)?)),
            // a route over 255 counts as 255, which is no route either
            ("seal", [route, text]) => Ok(Order::Seal(small_number(route)?, bytes(heap, text)?)),
            ("void", []) => Ok(Order::Void),
            ("key" | "pads" | "seal" | "void", _) => Err(Problem::WrongNumberOfArguments),
            _ => Err(Problem::NoSuchOrder),
        }
    }
}
