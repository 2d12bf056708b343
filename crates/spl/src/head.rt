// The head kernel's policy.
ghost use Rattle.spl.specs.Head.{head_class, head_lowest, head_code, head_named};
ghost use Rattle.std.proofs.Common.{rules};

use crate::policy::Policy;
use levels::Class;

// Classes by the line's number: 16 lines to a class.
#[derive(Clone, Copy, Debug, PartialEq, Eq)]
pub struct HeadPolicy;

impl Policy for HeadPolicy {
    type Kind = Class;

    ghost levels = { λ _ n. head_class n };

    ghost least = { λ _. head_lowest };

    ghost codes = { λ _ l. head_code l };

    ghost named = { λ _ c. head_named c };

    ghost higher = { Prim.search rules };

    ghost settable = { Prim.search rules };

    ghost distinct = { Prim.search rules };

    ghost decodes = { Prim.search rules };

    fn level_of(&self, line: u8) -> Class {
        Class(1 + line / 16)
    }

    fn lowest(&self) -> Class {
        Class(0)
    }

    fn code_of(&self, level: Class) -> Option<u8> {
        (level.0 < 5).then_some(level.0)
    }

    fn level_from(&self, code: u8) -> Option<Class> {
        (code < 5).then_some(Class(code))
    }
}
