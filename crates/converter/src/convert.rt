use tables::state::Tables;

mod calls;
mod finish;
mod readings;

// A converter of low-level events, over a host.
#[derive(Drop)]
pub struct EiEventConverter<H> {
    pub host: H,
    tables: Tables,
}
