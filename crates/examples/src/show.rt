// How a line shows a table, a size, a root and the place of an object.
use objects::Placed;
use refusals::Refusal;
use std::fmt;

// A table: the bytes of its low plane, a bar, and those of its high plane.
#[derive(Clone, Copy)]
pub struct Planes<'a>(pub &'a [u8]);

impl<'a> fmt::Display for Planes<'a> {
    fn fmt<W: fmt::Write>(&self, f: &mut fmt::Formatter<W>) -> fmt::Result {
        let (low, high) = self.0.split_at(self.0.len() / 2);
        write!(f, "{}|{}", Plane(low), Plane(high))
    }
}

// The bytes of a plane, with commas between them.
#[derive(Clone, Copy)]
struct Plane<'a>(&'a [u8]);

impl<'a> fmt::Display for Plane<'a> {
    fn fmt<W: fmt::Write>(&self, f: &mut fmt::Formatter<W>) -> fmt::Result {
        for (i, byte) in self.0.iter().enumerate() {
            if i > 0 {
                f.write_str(",")?;
            }
            write!(f, "{byte}")?;
        }
        Ok(())
    }
}

// A count of bytes.
#[derive(Clone, Copy)]
pub struct Size(pub u64);

impl fmt::Display for Size {
    fn fmt<W: fmt::Write>(&self, f: &mut fmt::Formatter<W>) -> fmt::Result {
        if self.0 == 1 {
            f.write_str("1 byte")
        } else {
            write!(f, "{} bytes", self.0)
        }
    }
}

// The root of a collection, if it has one.
#[derive(Clone, Copy)]
pub struct Root(pub Option<u32>);

impl fmt::Display for Root {
    fn fmt<W: fmt::Write>(&self, f: &mut fmt::Formatter<W>) -> fmt::Result {
        match self.0 {
            Some(word) => write!(f, "root {word}"),
            None => f.write_str("no root"),
        }
    }
}

// What a request for room was answered. As in C, the parts of a refused call's answer are zero.
#[derive(Clone, Copy)]
pub struct Place(pub Result<Placed, Refusal>);

impl fmt::Display for Place {
    fn fmt<W: fmt::Write>(&self, f: &mut fmt::Formatter<W>) -> fmt::Result {
        let (refusal, block, change) = match self.0 {
            Ok(placed) => (0, u64::from(placed.block), placed.change),
            Err(refusal) => (u32::from(refusal), 0, 0),
        };
        write!(f, "refusal {refusal}, block {block}, change {change}")
    }
}
