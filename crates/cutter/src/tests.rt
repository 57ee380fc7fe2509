//! Replies of the cutter and of a ration over it, at the edges of their rules.
use crate::cutter::Cutter;
use eff::ground::Ground;
use eff::question::{Call, Question, Reply, Value};
use host::host::Host;
use host::ration::Ration;

const FEEL: Question = Question {
    call: Call { instance: 0, op: 2 },
    argument: Value::Unit,
    wanted: Ground::Nat,
};

const UNKNOWN: Question = Question {
    call: Call { instance: 1, op: 2 },
    argument: Value::Unit,
    wanted: Ground::Nat,
};

const UNIT: Reply = Some(Value::Unit);

const ZERO: Reply = Some(Value::Count(0));

/// Operations of instance 0 at the edges of their ranges, with the answers of a fresh cutter.
const ANSWERED: &[(u8, Value, Ground, Reply)] = &[
    (0, Value::Count(0), Ground::Unit, UNIT),
    (0, Value::Count(15), Ground::Unit, UNIT),
    (1, Value::Count(0), Ground::Unit, UNIT),
    (1, Value::Count(6000), Ground::Unit, UNIT),
    (2, Value::Unit, Ground::Nat, ZERO),
];

/// Calls, arguments and types wanted that are refused.
const REFUSED: &[(u8, u8, Value, Ground)] = &[
    (0, 0, Value::Count(16), Ground::Unit),
    (0, 0, Value::Count(0x1_0000_0000), Ground::Unit),
    (0, 0, Value::Count(u64::MAX), Ground::Unit),
    (0, 0, Value::Truth(true), Ground::Unit),
    (0, 0, Value::Unit, Ground::Unit),
    (0, 0, Value::Count(0), Ground::Bool),
    (0, 0, Value::Count(0), Ground::Nat),
    (0, 0, Value::Count(0), Ground::Empty),
    (0, 1, Value::Count(6001), Ground::Unit),
    (0, 1, Value::Count(0x1_0000_0019), Ground::Unit),
    (0, 1, Value::Truth(false), Ground::Unit),
    (0, 1, Value::Unit, Ground::Unit),
    (0, 1, Value::Count(0), Ground::Bool),
    (0, 1, Value::Count(0), Ground::Nat),
    (0, 1, Value::Count(0), Ground::Empty),
    (0, 2, Value::Count(0), Ground::Nat),
    (0, 2, Value::Count(0x1_0000_0000), Ground::Nat),
    (0, 2, Value::Truth(false), Ground::Nat),
    (0, 2, Value::Unit, Ground::Bool),
    (0, 2, Value::Unit, Ground::Unit),
    (0, 2, Value::Unit, Ground::Empty),
    (0, 3, Value::Unit, Ground::Nat),
    (1, 2, Value::Unit, Ground::Nat),
];

#[test]
fn a_fresh_cutter(rt: HostRuntime) {
    for &(op, argument, wanted, reply) in ANSWERED {
        let call = Call { instance: 0, op };
        assert_eq!(rt;
            Cutter::fresh().ask(Question {
                call,
                argument,
                wanted,
            }),
            reply
        );
    }
    for &(instance, op, argument, wanted) in REFUSED {
        let call = Call { instance, op };
        assert_eq!(rt;
            Cutter::fresh().ask(Question {
                call,
                argument,
                wanted,
            }),
            None
        );
    }
}

#[test]
fn depths(rt: HostRuntime) {
    let table = [
        (0, 0),
        (24, 0),
        (25, 1),
        (74, 1),
        (75, 2),
        (130, 3),
        (6000, 120),
        (49, 120),
        (6001, 120),
    ];
    let mut cutter = Cutter::fresh();
    let go = Question {
        call: Call { instance: 0, op: 0 },
        argument: Value::Count(15),
        wanted: Ground::Unit,
    };
    assert_eq!(rt; cutter.ask(go), UNIT);
    for (micrometres, depth) in table {
        let call = Call { instance: 0, op: 1 };
        let _ = cutter.ask(Question {
            call,
            argument: Value::Count(micrometres),
            wanted: Ground::Unit,
        });
        assert_eq!(rt; cutter.depth(15), Some(depth));
        assert_eq!(rt; cutter.ask(FEEL), Some(Value::Count(50 * depth as u64)));
    }
    assert_eq!(rt; cutter.carriage(), 15);
    assert_eq!(rt; cutter.depth(14), Some(0));
    assert_eq!(rt; cutter.depth(16), None);
}

#[test]
fn rations(rt: HostRuntime) {
    for count in [0, 1, 65535] {
        let mut ration = Ration::new(Cutter::fresh(), count);
        for _ in 0..count {
            assert_eq!(rt; ration.ask(UNKNOWN), None);
            assert_eq!(rt; ration.ask(FEEL), ZERO);
        }
        assert_eq!(rt; ration.left(), 0);
        assert_eq!(rt; ration.ask(FEEL), None);
        assert_eq!(rt; ration.host().carriage(), 0);
    }
}
