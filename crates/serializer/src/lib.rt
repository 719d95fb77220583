//! Serializers: lists of items that write themselves.
#![tactic(auto)]

pub mod elements;
pub mod lent;
pub mod nullable;
pub mod serializer;

#[cfg(test)]
mod tests {
    use super::elements::ElementList;
    use super::nullable::write_nullable;
    use super::serializer::Serializer;
    use double::point::Point;
    use element::kinds::{DoubleWord, PointWords};

    // Whether item k behind its length word is just these bytes, and leaves the rest of the part.
    fn writes<S: Serializer>(serializer: &S, k: usize, bytes: &[u8]) -> bool {
        let mut part = [0xA5u8; 24];
        match write_nullable(serializer, k, &mut part) {
            Ok(size) => size == bytes.len() && part.starts_with(bytes) && part[23] == 0xA5,
            Err(_) => false,
        }
    }

    #[test]
    fn integers(rt: HostRuntime) {
        let words = [7i32, -2];
        assert!(rt; writes(&ElementList::new(&words), 1, b"\0\0\0\x04\xFF\xFF\xFF\xFE"));
        let wide = [1i64];
        assert!(rt; writes(&ElementList::new(&wide), 0, b"\0\0\0\x08\0\0\0\0\0\0\0\x01"));
        let some = [Some(7i32), None];
        let list = ElementList::new(&some);
        assert!(rt; writes(&list, 1, b"\xFF\xFF\xFF\xFF"));
        // lent, it is the same serializer
        assert!(rt; writes(&&list, 0, b"\0\0\0\x04\0\0\0\x07"));
    }

    #[test]
    fn doubles(rt: HostRuntime) {
        let doubles = [DoubleWord::from(1.5), DoubleWord::from(f64::NAN)];
        let list = ElementList::new(&doubles);
        assert!(rt; writes(&list, 0, b"\0\0\0\x08\x3F\xF8\0\0\0\0\0\0"));
        assert!(rt; writes(&list, 1, b"\0\0\0\x08\x7F\xF8\0\0\0\0\0\0"));
        let points = [PointWords::from(Point::new(1.0, -0.0))];
        assert!(rt;
            writes(
                &ElementList::new(&points),
                0,
                b"\0\0\0\x10\x3F\xF0\0\0\0\0\0\0\x80\0\0\0\0\0\0\0",
            )
        );
    }
}
