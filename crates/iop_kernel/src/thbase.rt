//! The services of `thbase`.

ghost use Rattle.std.specs.Prelude.{List};
ghost use Rattle.iop_registry.specs.declared.registry.Entry.{Entry};
ghost use Rattle.iop_kernel.specs.Standing.{Holds, IsHeld, HasNumber, HasRoomToWait, HasSizeOf, Serves, system};
ghost use Rattle.iop_kernel.specs.System.{Kernel as State};
ghost use Rattle.iop_kernel.specs.Thbase.{serves_thbase};

use crate::after::After;
use crate::kernel::Kernel;
use iop_base::Lines;
use iop_exec::Cpu;
use iop_ready::Ready;
use iop_services::ThbaseService;
use iop_stubs::Guest;
use iop_sysmem::Blocks;

impl<R: Ready> Kernel<R> {
    /// Does what a service of `thbase` does: each stands with its subject.
    #[tactic(auto, using(iop_base::proofs::Giving::gives_none), unfolding(crate::specs::Thbase::serves_thbase))]
    pub(crate) fn serve_thbase<L: Lines>(
        &mut self,
        service: ThbaseService,
        cpu: &mut Cpu,
        guest: &mut Guest,
        blocks: &mut Blocks,
        lines: &mut L,
    ) -> After
        requires sound { IsHeld R.stands self.old }
        requires room { HasRoomToWait R.stands self.old }
        requires number { HasNumber self.old }
        requires same_size { HasSizeOf blocks.old guest.old }
        ensures { (k : State) (libraries : List Entry) → Holds R.stands self.old k
            → let s = system k cpu.old guest.old blocks.old libraries in
            Serves R.stands (serves_thbase s service) result self.new cpu.new guest.new blocks.new
            libraries (L.output lines.old) (L.output lines.new) }
    {
        let [a0, a1, a2] = [cpu.regs[4], cpu.regs[5], cpu.regs[6]];
        match service {
            ThbaseService::CreateThread => self.create_thread(a0, cpu, guest, blocks, lines),
            ThbaseService::DeleteThread => self.delete_thread(a0, cpu, blocks),
            ThbaseService::StartThread => self.start_thread(a0, a1, cpu),
            ThbaseService::ExitThread => self.exit_thread(),
            ThbaseService::ExitDeleteThread => self.exit_delete_thread(cpu, blocks),
            ThbaseService::TerminateThread => self.terminate_thread(a0, cpu),
            ThbaseService::DisableDispatchThread => self.set_dispatch(false, cpu),
            ThbaseService::EnableDispatchThread => self.set_dispatch(true, cpu),
            ThbaseService::ChangeThreadPriority => self.change_priority(a0, a1, cpu),
            ThbaseService::RotateThreadReadyQueue => self.rotate_ready_queue(a0, cpu),
            ThbaseService::ReleaseWaitThread => self.release_wait(a0, cpu),
            ThbaseService::GetThreadId => self.get_thread_id(cpu),
            ThbaseService::ReferThreadStatus => self.refer_thread_status(a0, a1, cpu, guest, lines),
            ThbaseService::SleepThread => self.sleep_thread(cpu),
            ThbaseService::WakeupThread => self.wakeup_thread(a0, cpu),
            ThbaseService::CancelWakeupThread => self.cancel_wakeups(a0, cpu),
            ThbaseService::SuspendThread => self.suspend_thread(a0, cpu),
            ThbaseService::ResumeThread => self.resume_thread(a0, cpu),
            ThbaseService::DelayThread => self.delay_thread(a0, cpu),
            ThbaseService::GetSystemTime => self.get_system_time(a0, cpu, guest, lines),
            ThbaseService::SetAlarm => self.set_alarm(a0, a1, a2, cpu, guest),
            ThbaseService::CancelAlarm => self.cancel_alarm(a0, a1, cpu),
            ThbaseService::USec2SysClock => self.usec_to_clock(a0, a1, cpu, guest, lines),
            ThbaseService::SysClock2USec => self.clock_to_usec(a0, a1, a2, cpu, guest, lines),
        }
    }
}
