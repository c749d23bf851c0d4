// What the builder gives and takes of variables whose numbers fit in 16 bits, called as another crate calls it. It has
// tests alone.
#![tactic(auto)]

#[cfg(test)]
mod tests {
    use area::layout::{
        FATE_AT, HEADER_BYTES, STMT_BYTES, VAR_BYTES, VAR_STATE, VARIABLE_AT, WORD_BYTES,
    };
    use area::records::Area;
    use area::sections::Sizes;
    use ast::words::{put_word, read_word};
    use builder::allocation::fates::write_fates;
    use builder::allocation::pairing::lacking;
    use builder::allocation::roles::{Role, roles};

    // Longer than all that is laid here.
    const ROOM: usize = 256;

    // A header, a node that is a number, a rate equation of name 0 with it on the right, and two variables, the second
    // of which is a time-dependent state.
    const RATE: [u8; 200] = [
        0, 0, 0, 0, 0, 0, 0, 0, 0, 0, 0, 0, 0, 0, 0, 0, 0, 0, 0, 0, 0, 0, 0, 0, 0, 0, 0, 0, 0, 0,
        0, 0, 0, 0, 0, 0, 0, 0, 0, 0, 2, 0, 0, 0, 0, 0, 0, 0, 0, 0, 0, 0, 1, 0, 0, 0, 0, 0, 0, 0,
        0, 0, 0, 0, 0, 0, 0, 0, 0, 0, 0, 0, 2, 0, 0, 0, 0, 0, 0, 0, 0, 0, 0, 0, 0, 0, 0, 0, 0, 0,
        0, 0, 0, 0, 0, 0, 0, 0, 0, 0, 0, 0, 0, 0, 0, 0, 0, 0, 0, 0, 0, 0, 0, 0, 0, 0, 0, 0, 0, 0,
        0, 0, 0, 0, 0, 0, 0, 0, 0, 0, 0, 0, 0, 0, 0, 0, 0, 0, 0, 0, 0, 0, 0, 0, 0, 0, 0, 0, 0, 0,
        0, 0, 1, 0, 0, 0, 1, 0, 0, 0, 0, 0, 0, 0, 0, 0, 0, 0, 0, 0, 0, 0, 0, 0, 0, 0, 0, 0, 0, 0,
        1, 0, 0, 0, 0, 0, 0, 0, 0, 0, 0, 0, 0, 0, 0, 0, 0, 0, 0, 0,
    ];

    // The rate equation goes to the variable that has its name.
    #[test]
    fn a_rate_equation_goes_to_its_variable(rt: HostRuntime) {
        let sizes = Sizes {
            nodes: 1,
            stmts: 1,
            vars: 2,
            deps: 0,
        };
        let area = Area {
            bytes: &RATE,
            sizes,
        };
        let mut numbers = [0u16; 256];
        numbers[0] = 2;
        let found = roles(&area, &numbers, 0.0);
        assert!(rt; found.as_slice() == [Role::Rate(1)].as_slice());
    }

    // Variables 1 and 2 of three are states, and a rate equation goes to 1.
    #[test]
    fn the_state_without_a_rate_equation_is_lacking(rt: HostRuntime) {
        let mut bytes = [0u8; ROOM];
        put_word(
            &mut bytes,
            HEADER_BYTES + VAR_BYTES + WORD_BYTES * VAR_STATE,
            1,
        );
        put_word(
            &mut bytes,
            HEADER_BYTES + VAR_BYTES * 2 + WORD_BYTES * VAR_STATE,
            1,
        );
        let sizes = Sizes {
            nodes: 0,
            stmts: 0,
            vars: 3,
            deps: 0,
        };
        let area = Area {
            bytes: &bytes,
            sizes,
        };
        let states = lacking(&[Role::Rate(1)], &area);
        assert!(rt; states.as_slice() == [2u16].as_slice());
    }

    // Of two statements without a role the first is held by the state that is queued, and the second is left over; one
    // of two rate equations for one variable is replaced.
    #[test]
    fn a_queued_state_is_paired(rt: HostRuntime) {
        let mut area = [0u8; ROOM];
        let sizes = Sizes {
            nodes: 0,
            stmts: 4,
            vars: 0,
            deps: 0,
        };
        let roles = [Role::Neither, Role::Rate(1), Role::Rate(1), Role::Neither];
        write_fates(&mut area, sizes, &roles, &[65535u16]);
        for (i, fate, v) in [(0, 2, 65535), (1, 3, 1), (2, 2, 1), (3, 4, 0)] {
            let at = HEADER_BYTES + STMT_BYTES * i;
            assert!(rt; read_word(&area, at + FATE_AT) == fate);
            assert!(rt; read_word(&area, at + VARIABLE_AT) == v);
        }
    }
}
