use crate::closed::CloseAnswer;
use crate::machine::Machine;
use corten_base::Limits;
use file_shelf::Shelf;
use machine_law::MmPlan;
use row_table::Iron;
use std::test::Fail;

const GREATEST: Limits = Limits {
    levels: 4,
    frames: 8,
    tables: 16,
    swap: 8,
};

const SMALL: Limits = Limits {
    levels: 4,
    frames: 2,
    tables: 4,
    swap: 1,
};

#[test]
fn a_machine_is_a_table_limits_and_numbers(rt: HostRuntime) -> Result<(), Fail> {
    let (machine, _passes) = Machine::boot(rt.alloc(), GREATEST, 1)?;
    let Machine {
        iron,
        greatest,
        files,
        name,
    } = machine;
    let _iron: Iron<MmPlan> = iron;
    let whole: (Limits, u8, u64) = (greatest, files, name);
    assert_eq!(rt; whole, (GREATEST, 0, 0));
    Ok(())
}

#[test]
fn a_machine_that_is_set_up_has_its_new_limits_when_it_is_closed(
    rt: HostRuntime,
) -> Result<(), Fail> {
    let (machine, passes) = Machine::boot(rt.alloc(), GREATEST, 2)?;
    let (machine, passes) = machine.set_up(rt.alloc(), passes, SMALL, Shelf::new(rt.alloc()), 3)?;
    let CloseAnswer::Closed(closed) = machine.close(passes) else {
        return Err("a pass is missing".into());
    };
    let accounts = closed.accounts();
    assert_eq!(rt; closed.entries().len(), 0);
    assert_eq!(rt; closed.epochs(), [0, 0].as_slice());
    assert_eq!(rt;
        (accounts.frames_free, accounts.linked, accounts.limbo),
        (2, 1, 0)
    );
    Ok(())
}
