//! A box of an application is an application. `Box<dyn App>` is one of any kind, `Box<B>` one of a known kind.

use crate::app::App;
use crate::services::Services;
use lc_model::Seat;

impl App for Box<dyn App> {
    ghost meaning = { λ b. (App-box b).meaning b.value };

    fn name(&self) -> &[u8] {
        (**self).name()
    }

    fn start(&mut self, seat: Seat, services: &mut Services) {
        (**self).start(seat, services)
    }

    fn on_packet(&mut self, services: &mut Services, packet: &[u8]) {
        (**self).on_packet(services, packet)
    }

    fn retire(&mut self, services: &mut Services) {
        (**self).retire(services)
    }
}

impl<B: App> App for Box<B> {
    ghost meaning = { λ b. B.meaning b.value };

    fn name(&self) -> &[u8] {
        B::name(self)
    }

    fn start(&mut self, seat: Seat, services: &mut Services) {
        B::start(self, seat, services)
    }

    #[inline(always)]
    fn on_packet(&mut self, services: &mut Services, packet: &[u8]) {
        B::on_packet(self, services, packet)
    }

    fn retire(&mut self, services: &mut Services) {
        B::retire(self, services)
    }
}
