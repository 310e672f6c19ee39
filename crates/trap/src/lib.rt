// Traps, by class and number, as the manual's appendix lists them. The trap word holds both, and callers read them there; an enum of the
// lines would be no plainer, since a table back to class and number would be one thing more to believe.
#![tactic(auto)]

#[derive(Clone, Copy, Debug, PartialEq, Eq)]
pub struct Trap {
    pub class: u8,
    pub number: u8,
}

impl Trap {
    pub const STACK_FULL: Trap = Trap {
        class: 1,
        number: 1,
    };

    pub const STORAGE_FULL: Trap = Trap {
        class: 1,
        number: 2,
    };

    pub const STEP: Trap = Trap {
        class: 2,
        number: 1,
    };

    pub const CALL_TRACE: Trap = Trap {
        class: 2,
        number: 2,
    };

    pub const RETURN_TRACE: Trap = Trap {
        class: 2,
        number: 3,
    };

    pub const BREAKPOINT: Trap = Trap {
        class: 2,
        number: 4,
    };

    pub const PROCEDURE_ADDRESS: Trap = Trap {
        class: 3,
        number: 1,
    };

    pub const STACK_ADDRESS: Trap = Trap {
        class: 3,
        number: 2,
    };

    pub const GLOBAL_ADDRESS: Trap = Trap {
        class: 3,
        number: 3,
    };

    pub const MISSING_OPERAND: Trap = Trap {
        class: 3,
        number: 4,
    };

    pub const UNKNOWN_DESCRIPTOR: Trap = Trap {
        class: 3,
        number: 5,
    };

    pub const DOUBLE_INDIRECTION: Trap = Trap {
        class: 3,
        number: 6,
    };

    pub const MALFORMED_MEMREF: Trap = Trap {
        class: 3,
        number: 7,
    };

    pub const UNDEFINED_MEMREF: Trap = Trap {
        class: 3,
        number: 8,
    };

    pub const UNDEFINED_GENSCALAR: Trap = Trap {
        class: 3,
        number: 9,
    };

    pub const UNDEFINED_ETC: Trap = Trap {
        class: 3,
        number: 11,
    };

    pub const TEMPORARIES_LEFT: Trap = Trap {
        class: 3,
        number: 12,
    };

    pub const BOTTOM_FRAME: Trap = Trap {
        class: 3,
        number: 13,
    };

    pub const ATTENTION: Trap = Trap {
        class: 4,
        number: 0,
    };

    pub const RANK_ERROR: Trap = Trap {
        class: 5,
        number: 0,
    };

    pub const LENGTH_ERROR: Trap = Trap {
        class: 6,
        number: 0,
    };

    pub const TYPE_ERROR: Trap = Trap {
        class: 7,
        number: 0,
    };

    pub const INTEGER_OVERFLOW: Trap = Trap {
        class: 8,
        number: 1,
    };

    pub const UNDERFLOW: Trap = Trap {
        class: 8,
        number: 2,
    };

    pub const OVERFLOW: Trap = Trap {
        class: 8,
        number: 3,
    };

    pub const ZERO_DIVISOR: Trap = Trap {
        class: 8,
        number: 4,
    };

    pub const DOMAIN_ERROR: Trap = Trap {
        class: 8,
        number: 5,
    };

    pub const SUBSCRIPT_COUNT: Trap = Trap {
        class: 9,
        number: 1,
    };

    pub const INDEX_ERROR: Trap = Trap {
        class: 9,
        number: 2,
    };

    pub const VALUE_ERROR: Trap = Trap {
        class: 10,
        number: 0,
    };
}
