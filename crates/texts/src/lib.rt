//! Texts that lie in two pools, named by places.
#![tactic(auto)]

pub mod place;
pub mod pools;
pub mod texts;

#[cfg(test)]
mod tests {
    use crate::place::{Place, Pool, Span};
    use crate::pools::Pools;
    use crate::texts::Texts;
    use fault::Fault;
    use serializer::serializer::Serializer;
    use std::test::Fail;
    use wire::oid::IsNull;

    fn at(pool: Pool, start: usize, length: usize) -> Place {
        Some(Span {
            pool,
            start,
            length,
        })
    }

    // Whether item k has this size, none for NULL, and leaves these bytes of eight dots.
    fn holds(texts: &Texts, k: usize, size: Option<usize>, bytes: [u8; 8]) -> Result<bool, Fault> {
        let mut part = *b"........";
        let null = texts.write(k, &mut part)?;
        Ok(texts.size(k)? == size && (null == IsNull::Yes) == size.is_none() && part == bytes)
    }

    // Whether item k breaks this rule, at k and level 0, in both calls.
    fn breaks(texts: &Texts, k: usize, rule: u8) -> bool {
        match (texts.size(k), texts.write(k, &mut [])) {
            (Err(fault), Err(same)) => {
                fault.rule.number() == rule && fault.place == k && fault.level == 0 && same == fault
            }
            _ => false,
        }
    }

    #[test]
    fn items(rt: HostRuntime) -> Result<(), Fail> {
        let pools = Pools::new(b"salt, pepper", b"cr\xC3\xA8me");
        let places = [
            None,
            at(Pool::House, 6, 6),
            at(Pool::Supplier, 0, 6),
            at(Pool::Supplier, 1, 6),
            // ends within a character
            at(Pool::Supplier, 0, 3),
            at(Pool::House, 12, 0),
        ];
        let texts = Texts::new(pools, &places);
        assert!(rt; texts.count() == 6);
        assert!(rt; holds(&texts, 0, None, *b"........")?);
        assert!(rt; holds(&texts, 1, Some(6), *b"pepper..")?);
        assert!(rt; holds(&texts, 2, Some(6), *b"cr\xC3\xA8me..")?);
        assert!(rt; breaks(&texts, 3, 15));
        assert!(rt; breaks(&texts, 4, 6));
        assert!(rt; holds(&texts, 5, Some(0), *b"........")?);
        assert!(rt; breaks(&texts, 6, 10));
        Ok(())
    }
}
