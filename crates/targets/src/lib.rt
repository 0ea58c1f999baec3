//! What a URL names: hosts, endpoints and targets (RFC 3986, section 3; RFC 9112, section 3.2), and the URL of a
//! target.
#![tactic(auto)]

pub mod byte;
mod byte_class;
mod endpoint;
mod host_name;
pub mod laws;
mod target;
mod url;

pub use endpoint::{Endpoint, EndpointFault, EndpointList, PORT_DIGITS, PORT_MAX, name_length};
pub use host_name::{HOST_NAME_MAX, HostName};
pub use target::{HTTP_PORT, HTTPS_PORT, Protocol, TARGET_MAX, Target, TargetFault};
pub use url::{add_url, url_of, url_room};
