use cam_base::List;

/// The numbers of labels: of domains, of connections, and of leaves that are devices, each by its place.
#[derive(Drop)]
pub struct LabelNumbers {
    pub domains: List<u32>,
    pub connections: List<u32>,
    pub devices: List<u32>,
}
