// The root kernel's policy.
ghost use Rattle.levels.specs.declared.BsdLevel.TheVariants.{None as Lowest};
ghost use Rattle.spl.specs.Root.{root_level, root_code, root_named};
ghost use Rattle.spl.specs.Names.{root_decodes};
ghost use Rattle.std.proofs.Common.{rules};

use crate::policy::Policy;
use levels::BsdLevel;

// BSD levels by the line's number; each level can be set.
#[derive(Clone, Copy, Debug, PartialEq, Eq)]
pub struct RootPolicy;

impl Policy for RootPolicy {
    type Kind = BsdLevel;

    ghost levels = { λ _ n. root_level n };

    ghost least = { λ _. Lowest };

    ghost codes = { λ _ l. root_code l };

    ghost named = { λ _ c. root_named c };

    ghost higher = { Prim.search rules };

    ghost settable = { Prim.search rules };

    ghost distinct = { Prim.search rules };

    ghost decodes = { λ p c. root_decodes c };

    fn level_of(&self, line: u8) -> BsdLevel {
        match line {
            0 | 8 => BsdLevel::Clock,
            1..=4 | 7 | 12 | 13 => BsdLevel::Tty,
            5 | 9..=11 | 16..=31 => BsdLevel::Net,
            6 | 14 | 15 | 32..=47 => BsdLevel::Bio,
            48..=55 => BsdLevel::SoftNet,
            _ => BsdLevel::SoftClock,
        }
    }

    fn lowest(&self) -> BsdLevel {
        BsdLevel::None
    }

    fn code_of(&self, level: BsdLevel) -> Option<u8> {
        Some(level.code())
    }

    fn level_from(&self, code: u8) -> Option<BsdLevel> {
        BsdLevel::try_from(code).ok()
    }
}
